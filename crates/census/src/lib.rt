// The census of a pool: whether it is sound, and which block's table stands at each place. A table is sound when each
// of its entries is, and an entry is sound when it is eight rights or leads to a sound table one level down. No place
// may have two owners.
#![tactic(auto)]

ghost use Rattle.std.specs.Prelude.{◌≡◌, ◌+◌, ◌-◌, ◌%◌, ◌≤◌, ◌<◌, length, true};
ghost use Rattle.theory.specs.Pool.{words};
ghost use Rattle.table.specs.Shape.{Fits, InRange, size};
ghost use Rattle.places.specs.Count.{blocks, domain_of};
ghost use Rattle.census.specs.Places.{max_places, place_height, place_word, first_number};
ghost use Rattle.census.specs.Tally.{give, AllPlain, entry_tally, table_tally, Answers, tables};
ghost use Rattle.census.specs.Census.{Census};

use table::{Entry, LEAF_WORDS, Shape, TABLE_WORDS};
use words::PoolWord;

// How many places there may be, middle and leaf.
pub const PLACES: usize = 72;

// The owner of a place where no table stands: a number that no block has. (An Option<u32> takes twice as much, and the
// owners stand on a stack of 1,024 bytes.)
pub const NONE: u32 = 0xFFFF_FFFF;

// The height of the tables that place `n` is for.
pub fn place_height(n: usize) -> u32
    ensures { result ≡ place_height n }
{
    if n < table::FIRST_LEAF { 1 } else { 0 }
}

// The pool word where place `n` begins.
pub fn place_word(shape: Shape, n: usize) -> PoolWord
    requires in_range { InRange shape }
    requires n_lt_max_places { n < max_places }
    ensures { result ≡ record { 0 = place_word shape n } }
{
    let middles = TABLE_WORDS * shape.domains;
    if n < table::FIRST_LEAF {
        return PoolWord::from(middles + TABLE_WORDS * n as u32);
    }
    let leaves = middles + TABLE_WORDS * shape.middles;
    PoolWord::from(leaves + LEAF_WORDS * (n - table::FIRST_LEAF) as u32)
}

// The number of the first place for tables of a height.
pub fn first_number(height: u32) -> u32
    ensures { result ≡ first_number height }
{
    match height {
        0 => table::FIRST_LEAF as u32,
        _ => 0,
    }
}

// The domain of a block that may have a table of a height.
pub fn domain_of(height: u32, block: u32) -> u32
    ensures { result ≡ domain_of height block }
{
    match height {
        0 => block / table::DOMAIN_PAGES,
        _ => block / table::DOMAIN_BLOCKS,
    }
}

// The number in its domain of a block that may have a table of a height.
pub fn block_in_domain(height: u32, block: u32) -> u32
    ensures { result ≡ block % blocks height }
{
    match height {
        0 => block % table::DOMAIN_PAGES,
        _ => block % table::DOMAIN_BLOCKS,
    }
}

// Place `n` becomes that of a block, unless it has an owner already.
fn give_place(n: usize, block: u32, owners: &mut [u32; PLACES]) -> bool
    requires { n < max_places }
    ensures { Answers (give n block owners.old) result owners.new }
{
    if owners[n] != NONE {
        return false;
    }
    owners[n] = block;
    true
}

// How many words from `word` on, entry `i` of its table, are eight rights: up to the first that is not, or to the
// table's end.
pub fn plain_ahead(pool: &[u32], word: PoolWord, i: u32) -> u32
    requires { (i < 1024) × (word.0 + (1024 - i) ≤ length pool.now) }
    ensures { (i + result ≤ 1024) × AllPlain (words pool.now) word.0 result }
{
    if !words::good_rights(pool[word.index()]) {
        return 0;
    }
    words::skip_rights(pool, word, (TABLE_WORDS - i) as usize) as u32
}

// The table of a height above the leaves that begins at `base`, of a block.
#[cycle(entry_check_table_check)]
fn table_check(
    pool: &[u32],
    shape: Shape,
    height: u32,
    base: PoolWord,
    block: u32,
    owners: &mut [u32; PLACES],
) -> bool
    requires fits { Fits shape (length pool.now) }
    requires height_nonzero { (0 < height) × (height ≤ 2) × (block < tables shape.domains height) }
    requires height_in_bounds { base.0 + size height ≤ length pool.now }
    ensures { Answers (table_tally shape pool.now height base.0 block owners.old) result
        owners.new }
{
    let first = TABLE_WORDS * block;
    let mut i = 0;
    // No `for`: it passes over as many entries at a time as are eight rights.
    while i < TABLE_WORDS {
        let word = base.after(i as usize);
        let n = plain_ahead(pool, word, i);
        if n == 0 {
            let w = pool[word.index()];
            if !entry_check(pool, shape, height, w, first + i, owners) {
                return false;
            }
            i += 1;
        } else {
            i += n;
        }
    }
    true
}

// The word `w` as the entry of a block, of a height above the leaves.
#[cycle(entry_check_table_check)]
fn entry_check(
    pool: &[u32],
    shape: Shape,
    height: u32,
    w: u32,
    block: u32,
    owners: &mut [u32; PLACES],
) -> bool
    requires fits { Fits shape (length pool.now) }
    requires height_nonzero { (0 < height) × (height ≤ 2) × (block < tables shape.domains (height - 1)) }
    ensures { Answers (entry_tally shape pool.now height w block owners.old) result
        owners.new }
{
    match table::decode(shape, height, w) {
        Entry::Rights(_) => true,
        Entry::Bad => false,
        Entry::Leads(t, n) => {
            // A leaf is not read: there every value is good.
            give_place(n, block, owners)
                && (height == 1 || table_check(pool, shape, height - 1, t, block, owners))
        }
    }
}

// Whether the pool is sound, and, where it is, the owners of its places: of each place the number of the block whose
// table stands there, over all domains (1024 * d + b for block b of domain d, 1048576 * d + p for page p), or NONE. It
// answers a bool, and the owners are lent: by value they would stand twice on a stack of 1,024 bytes.
#[inline(never)]
pub fn census(pool: &[u32], shape: Shape, owners: &mut [u32; PLACES]) -> bool
    requires fits { Fits shape (length pool.now) }
    ensures { Census pool.now shape result owners.new }
{
    owners.fill(NONE);
    for d in 0..shape.domains {
        let root = PoolWord::from(TABLE_WORDS * d);
        if !table_check(pool, shape, 2, root, d, owners) {
            return false;
        }
    }
    true
}
