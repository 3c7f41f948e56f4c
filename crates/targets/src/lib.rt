// Whether a page (4 KB) or a block (4 MB) can be said with eight rights, once a region is painted with a right.
#![tactic(auto)]

ghost use Rattle.std.specs.Prelude.{◌≡◌, true, ℕ, suc, ◌+◌, ◌*◌, ◌/◌, ◌%◌, ◌<◌, ◌≤◌, length};
ghost use Rattle.theory.specs.Pool.{words};
ghost use Rattle.words.specs.Rights.{pack};
ghost use Rattle.table.specs.Map.{block};
ghost use Rattle.table.specs.Wants.{said_of};
ghost use Rattle.targets.specs.Targets.{entry_blocks, painted, target_of, virtual_of, given, Gives, GivesLeaf};
ghost use Rattle.targets.specs.Targets.{Readable, Decides};
ghost use Rattle.targets.specs.Steps.{CoverIs, Before, right_after, Plain, OneIs, PartIs, GoodRights, SaysIs};
ghost use Rattle.targets.specs.Steps.{ToldIs, BlockHas, BlocksHave};

mod leaves; // leaves.rt: whether a leaf as it stands has two rights in a sub-block
mod wanted; // wanted.rt: whether tables are wanted, and a pool settled

pub use wanted::settled;
use words::PoolWord;

// The memory words `lo ≤ w < hi` get the right. That it is below 4 is a clause and no part of the type: a paint is read
// from the lent words of a plan (`paint_in`), which may say any number.
#[derive(Clone, Copy)]
pub struct Paint {
    pub lo: u32,
    pub hi: u32,
    pub right: u32,
}

// The empty region: rights as they stand. It is a paint like any other and no Option, so that one search serves both.
pub const UNPAINTED: Paint = Paint {
    lo: 0,
    hi: 0,
    right: 0,
};

// How a region meets a stretch of memory words: it has none of them, some, or all.
#[derive(Clone, Copy)]
enum Cover {
    Apart,
    Partly,
    Whole,
}

// How the region meets the `n` memory words from `s` on. The first test is for an empty region: inside the stretch it
// would seem to part it. (It stands by itself, since in one condition with the others the compiler made all of them at
// each of the leaf entries that a search passes.)
fn meeting(paint: Paint, s: u32, n: u32) -> Cover
    requires { s + n ≤ 0x40000000 }
    ensures { CoverIs result paint s n }
{
    if paint.hi <= paint.lo {
        return Cover::Apart;
    }
    let end = s + n;
    if paint.hi <= s || end <= paint.lo {
        Cover::Apart
    } else if s < paint.lo || paint.hi < end {
        Cover::Partly
    } else {
        Cover::Whole
    }
}

// How many of the sixteen words from `s` on come before word `x`.
fn words_before(s: u32, x: u32) -> u32
    ensures { Before s x result }
{
    x.saturating_sub(s).min(16)
}

// The leaf entry `w`, which the region parts: its own rights before and after the region, and the painted one between.
// A loop over the sixteen would be unrolled, and want a register for each.
fn repack(paint: Paint, w: u32, s: u32) -> u32
    requires s_bound { (s + 16 ≤ 0x40000000) × (paint.right < 4) }
    requires lo_le_hi { paint.lo ≤ paint.hi }
    ensures { result ≡ pack 0 16 (right_after paint w s) }
{
    let a = words_before(s, paint.lo);
    let b = words_before(s, paint.hi);
    let same = u64::from(words::sixteen_of(paint.right));
    let old = u64::from(w);
    let low: u64 = 1 << (2 * a);
    let high: u64 = 1 << (2 * b);
    (old % low + (same % high - same % low) + (old - old % high)) as u32
}

// The leaf entry `w` of the 64 bytes numbered `chunk`, after the painting.
pub fn paint_word(paint: Paint, w: u32, chunk: u32) -> u32
    requires { (chunk < 67108864) × (paint.right < 4) }
    ensures { (R : ℕ → ℕ) → GivesLeaf w chunk R → result ≡ said_of (painted paint R) 0 (chunk * 64) }
{
    let s = chunk * 16;
    match meeting(paint, s, 16) {
        Cover::Apart => w,
        Cover::Whole => words::sixteen_of(paint.right),
        Cover::Partly => repack(paint, w, s),
    }
}

// The one right of the `n` words from `s` on after the painting, where they had the right `o`, or none if they have two.
fn even_part(paint: Paint, o: u32, s: u32, n: u32) -> Option<u32>
    requires { s + n ≤ 0x40000000 }
    ensures { (R : ℕ → ℕ) → Plain R s n o → OneIs result (painted paint R) s n }
{
    match meeting(paint, s, n) {
        Cover::Apart => Some(o),
        Cover::Whole => Some(paint.right),
        Cover::Partly if o == paint.right => Some(o),
        Cover::Partly => None,
    }
}

// What the entry of the block numbered `n` should be after the painting, where it is `e`, as far as it is known without
// a search of its sub-blocks. A block that is covered whole needs none, nor does one that is not covered and has no
// table, and a leaf entry never does.
fn at_once(paint: Paint, height: u32, e: u32, n: u32) -> Option<u32>
    requires good_rights { GoodRights height e }
    requires height_bound { (height ≤ 2) × (n < entry_blocks height) × (paint.right < 4) }
    ensures { ToldIs result paint height e n }
{
    let long = table::block_words(height);
    match meeting(paint, n * long, long) {
        Cover::Whole => Some(table::same_entry(height, paint.right)),
        Cover::Apart if height == 0 || e >= words::BIT_31 => Some(e),
        _ if height == 0 => Some(paint_word(paint, e, n)),
        _ => None,
    }
}

// Whether it is `same` because it stands so and nothing is painted: the settled test asks this of nearly every entry.
fn stands(paint: Paint, height: u32, e: u32, n: u32, same: u32) -> bool
    requires { GoodRights height e }
    ensures { result ≡ true → SaysIs paint height e n same }
{
    paint.hi <= paint.lo && e == same && (height == 0 || e >= words::BIT_31)
}

// The one right of sub-block `i` of a block whose entry is rights, after the painting, or none if it has two.
fn rights_part(paint: Paint, below: u32, e: u32, n: u32, i: u32) -> Option<u32>
    requires { (0x80000000 ≤ e) × (below < 2) × (n < entry_blocks (suc below)) × (i < 8) }
    ensures { (P : ℕ → ℕ) → PartIs P paint (suc below) e n i result }
{
    let o = words::right_at(e, i);
    let long = table::part_words(below + 1);
    even_part(paint, o, (8 * n + i) * long, long)
}

// Whether a block whose entry is rights has the right on all its words after the painting.
fn rights_have(paint: Paint, below: u32, e: u32, n: u32, right: u32) -> bool
    requires { (0x80000000 ≤ e) × (below < 2) × (n < entry_blocks (suc below)) }
    ensures { (P : ℕ → ℕ) → Decides result (BlockHas P paint (suc below) e n right) }
{
    (0..8).all(|i| rights_part(paint, below, e, n, i) == Some(right))
}

// The right of the first word of a block after the painting: found down the first entries, it needs no search.
fn first_right(pool: &[u32], paint: Paint, height: u32, e: u32, n: u32) -> u32
    requires readable { Readable pool.now height e }
    requires height_bound { (height < 2) × (n < entry_blocks height) }
    ensures { result ≡ painted paint (given (words pool.now) height e) (4 * (n * (block height / 4))) }
{
    let s = n * table::block_words(height);
    if paint.lo <= s && s < paint.hi {
        return paint.right;
    }
    if height == 0 || e >= words::BIT_31 {
        return words::right_at(e, 0);
    }
    let table = PoolWord::from(e);
    words::right_at(pool[table.index()], 0)
}

// Whether a block with any entry has the right on all its words after the painting. This and `entries_have` call each
// other, the height falling.
#[cycle(entries_have_has_all)]
fn has_all(pool: &[u32], paint: Paint, height: u32, e: u32, n: u32, right: u32) -> bool
    requires readable { Readable pool.now height e }
    requires height_bound { (height ≤ 2) × (n < entry_blocks height) × (paint.right < 4) × (right < 4) }
    ensures { Decides result (BlockHas (words pool.now) paint height e n right) }
{
    let same = table::same_entry(height, right);
    if stands(paint, height, e, n, same) {
        return true;
    }
    if height == 0 {
        return paint_word(paint, e, n) == same;
    }
    let long = table::block_words(height);
    if let Cover::Whole = meeting(paint, n * long, long) {
        return paint.right == right;
    }
    if e >= words::BIT_31 {
        return rights_have(paint, height - 1, e, n, right);
    }
    let table = PoolWord::from(e);
    let size = table::size_of(height - 1);
    entries_have(pool, paint, height - 1, table, size, size * n, right)
}

// Whether the blocks of the `count` entries from pool word `from` on, which are numbered from `number` on, all have it.
#[cycle(entries_have_has_all)]
fn entries_have(
    pool: &[u32],
    paint: Paint,
    height: u32,
    from: PoolWord,
    count: u32,
    number: u32,
    right: u32,
) -> bool
    requires count_in_bounds { (from.0 + count ≤ length pool.now) × (number + count ≤ entry_blocks height) }
    requires by_index { (j : ℕ) → j < count → Readable pool.now height (words pool.now (from.0 + j)) }
    requires height_bound { (height ≤ 2) × (paint.right < 4) × (right < 4) }
    ensures { Decides result (BlocksHave (words pool.now) paint height from.0 count number right) }
{
    let start = from.index();
    for j in 0..count {
        let w = pool[start + j as usize];
        if !has_all(pool, paint, height, w, number + j, right) {
            return false;
        }
    }
    true
}

// The one right of sub-block `i` of a block with any entry, or none if it has two: of one that leads, the entries of
// its table, which have the height `below`, are asked for the right of the first word.
fn part(pool: &[u32], paint: Paint, below: u32, e: u32, n: u32, i: u32) -> Option<u32>
    requires readable { Readable pool.now (suc below) e }
    requires below_bound { (below < 2) × (n < entry_blocks (suc below)) × (i < 8) × (paint.right < 4) }
    ensures { PartIs (words pool.now) paint (suc below) e n i result }
{
    if e >= words::BIT_31 {
        return rights_part(paint, below, e, n, i);
    }
    let count = table::part_entries(below);
    let table = PoolWord::from(e);
    let word = table.after((count * i) as usize);
    let number = (8 * n + i) * count;
    let right = first_right(pool, paint, below, pool[word.index()], number);
    let all = entries_have(pool, paint, below, word, count, number, right);
    all.then_some(right)
}

// The block's target, sub-block by sub-block. Each right is added to the entry as it comes: an array to gather them in
// would stand on the stack.
fn search(pool: &[u32], paint: Paint, below: u32, e: u32, n: u32) -> Option<u32>
    requires readable { Readable pool.now (suc below) e }
    requires below_bound { (below < 2) × (n < entry_blocks (suc below)) × (paint.right < 4) }
    ensures { result ≡ target_of (painted paint (given (words pool.now) (suc below) e)) (suc below)
        (n * block (suc below)) }
{
    let mut said = words::BIT_31;
    for i in 0..8 {
        said += part(pool, paint, below, e, n, i)? << (2 * i);
    }
    Some(said)
}

// What the entry of the block numbered `n` should be after the painting, where it is `e`: the rights that say the block,
// or none where a sub-block has two rights, so that it must lead to a table.
pub fn entry_target(pool: &[u32], paint: Paint, height: u32, e: u32, n: u32) -> Option<u32>
    requires readable { Readable pool.now height e }
    requires height_bound { (height ≤ 2) × (n < entry_blocks height) × (paint.right < 4) }
    ensures { (R : ℕ → ℕ) → Gives (words pool.now) height e n R
        → result ≡ target_of (painted paint R) height (n * block height) }
{
    if let Some(w) = at_once(paint, height, e, n) {
        return Some(w);
    }
    if leaves::seen_mixed(pool, paint, height, e) {
        return None;
    }
    search(pool, paint, height - 1, e, n)
}

// The entry of a height that would stand for block `n`, where the entry `e` above it is eight rights and there is no
// table.
pub fn virtual_entry(height: u32, e: u32, n: u32) -> u32
    ensures { result ≡ virtual_of height e n }
{
    let i = n / table::part_entries(height) % 8;
    table::same_entry(height, words::right_at(e, i))
}
