// The table: the shape of a pool, what its entries say, making it fresh, and the lookup of one word.
#![tactic(auto)]

ghost use Rattle.std.specs.Prelude.{◌≡◌, ◌+◌, ◌*◌, ◌<◌, ◌≤◌, length, replicate};
ghost use Rattle.theory.specs.Pool.{words};
ghost use Rattle.theory.specs.Walk.{walk};
ghost use Rattle.table.specs.Shape.{fits_of, pool_length, Fits, InRange};
ghost use Rattle.table.specs.Map.{index, part_of, form_of};
ghost use Rattle.table.specs.Entries.{leads_to, decode_of};
ghost use Rattle.table.specs.Fresh.{MakesFresh};
ghost use Rattle.table.specs.Lookup.{found_at, without_reach, lookup_of, LooksUp};
ghost use Rattle.table.specs.Access.{passes_of};

use refusals::Refusal;
use words::{ByteAddr, PoolWord};

mod geometry; // geometry.rt: blocks, parts, sizes and places by the height
mod reach; // reach.rt: how far the right of a deciding entry goes

pub use geometry::{
    BLOCK_BYTES, DOMAIN_BLOCKS, DOMAIN_PAGES, LEAF_WORDS, LINE_BYTES, Level, PAGE_BYTES, ROOT,
    TABLE_WORDS, block_words, first_place, leads, level_of, part_entries, part_words, parts_of,
    places_of, root_word, same_entry, size_of,
};

// The most roots, middle places and leaf places that a pool may have.
pub const MAX_DOMAINS: u32 = 4;

pub const MAX_MIDDLES: u32 = 8;

pub const MAX_LEAVES: u32 = 64;

// Places are numbered: the middle ones from 0 on, the leaf places from this number on.
pub const FIRST_LEAF: usize = 8;

// The kinds of access, as numbers from outside and no enum: `passes` promises an answer for every number.
pub const LOAD: u32 = 0;

pub const STORE: u32 = 1;

pub const FETCH: u32 = 2;

// How many roots, middle places and leaf places the pool has: D, M and L. Pool and shape are lent side by side, with a
// clause that they fit: of a struct that lends the pool, clauses would say `table.entry.pool.now` for `pool.now`.
#[derive(Clone, Copy)]
pub struct Shape {
    pub domains: u32,
    pub middles: u32,
    pub leaves: u32,
}

// What an entry says: it is rights; or it leads to the table that begins at a pool word, in the place of a number; or
// it is bad. These are the paper's three cases: with a Result for the bad one, who asks would match twice.
#[derive(Clone, Copy)]
pub enum Entry {
    Rights(u32),
    Leads(PoolWord, usize),
    Bad,
}

// A word of the pool that a walk has read, and how many it has read with it.
#[derive(Clone, Copy)]
pub struct Loaded {
    pub word: u32,
    pub loads: u32,
}

// The right that a walk finds, the entry that decides it, and how many words were read.
#[derive(Clone, Copy)]
pub struct Decided {
    pub right: u32,
    pub entry: u32,
    pub loads: u32,
}

// What a lookup answers: the same, and the first and the last byte of the stretch that has this right, inside the
// entry's block.
#[derive(Clone, Copy)]
pub struct Deciding {
    pub right: u32,
    pub entry: u32,
    pub loads: u32,
    pub first: ByteAddr,
    pub last: ByteAddr,
}

// How many words a pool of this shape has.
fn pool_length(shape: Shape) -> usize
    requires { InRange shape }
    ensures { result ≡ pool_length shape }
{
    let leaves = LEAF_WORDS * shape.leaves;
    (TABLE_WORDS * (shape.domains + shape.middles) + leaves) as usize
}

// Whether a pool of `long` words has this shape. The ranges come first: with them its length cannot wrap.
pub fn shape_fits(shape: Shape, long: usize) -> bool
    ensures { result ≡ fits_of shape long }
{
    (1..=MAX_DOMAINS).contains(&shape.domains)
        && shape.middles <= MAX_MIDDLES
        && shape.leaves <= MAX_LEAVES
        && long == pool_length(shape)
}

// The entry by which an address goes in a table of a height.
pub fn index_in(height: u32, address: ByteAddr) -> usize
    requires { height ≤ 2 }
    ensures { result ≡ index height address.0 }
{
    let a = u32::from(address);
    let entry = match height {
        0 => a / LINE_BYTES % LEAF_WORDS,
        1 => a / PAGE_BYTES % TABLE_WORDS,
        _ => a / BLOCK_BYTES % TABLE_WORDS,
    };
    entry as usize
}

// Which right of an entry of a height is that of an address.
pub fn part_in(height: u32, address: ByteAddr) -> u32
    requires { height ≤ 2 }
    ensures { result ≡ part_of height address.0 }
{
    let a = u32::from(address);
    match height {
        0 => a / 4 % 16,
        1 => a / (PAGE_BYTES / 8) % 8,
        _ => a / (BLOCK_BYTES / 8) % 8,
    }
}

// A pointer to the first word of one of `count` places of `long` words, the first of them at `first` and with the
// number `nth`.
fn leads_to(first: PoolWord, long: u32, count: u32, nth: usize, w: u32) -> Entry
    requires { (0 < long) × (first.0 + long * count < 4294967296) × (nth + count < 4294967296) }
    ensures { result ≡ leads_to first.0 long count nth w }
{
    let from = first.entry();
    if w < from || w >= from + long * count || (w - from) % long != 0 {
        return Entry::Bad;
    }
    let place = (w - from) / long;
    Entry::Leads(PoolWord::from(w), nth + place as usize)
}

// What the word `w` says as an entry of a height.
pub fn decode(shape: Shape, height: u32, w: u32) -> Entry
    requires { InRange shape }
    ensures { result ≡ decode_of shape height w }
{
    match height {
        0 => Entry::Rights(w),
        1 if w < words::BIT_31 => {
            leads_to(
                first_place(shape, 0),
                LEAF_WORDS,
                shape.leaves,
                FIRST_LEAF,
                w,
            )
        }
        _ if w < words::BIT_31 => {
            leads_to(first_place(shape, 1), TABLE_WORDS, shape.middles, 0, w)
        }
        _ if words::good_rights(w) => Entry::Rights(w),
        _ => Entry::Bad,
    }
}

// Each word of a part becomes the value. A slice's own `fill` stores the last one by itself, and keeps where it is while
// it stores the others: 16 bytes of stack more. By index, so that what it stores is seen to be this one store.
fn fill(part: &mut [u32], value: u32)
    ensures { part.new ≡ replicate (length part.old) value }
{
    for i in 0..part.len() {
        part[i] = value;
    }
}

// Every root word says eight times none; all places are zero.
pub fn fresh(pool: &mut [u32], shape: Shape) -> Result<(), Refusal>
    ensures { MakesFresh shape pool.old result pool.new }
{
    if !shape_fits(shape, pool.len()) {
        return Err(Refusal::NoShape);
    }
    let first_middle = first_place(shape, 1);
    fill(&mut pool[..first_middle.index()], words::BIT_31);
    fill(&mut pool[first_middle.index()..], 0);
    Ok(())
}

// The one read of a walk, and its count: the loads that a lookup reports are the reads that it makes.
fn load(pool: &[u32], at: PoolWord, before: u32) -> Loaded
    requires { (at.0 < length pool.now) × (before < 3) }
    ensures { (result.word ≡ words pool.now at.0) × (result.word < 4294967296)
        × (result.loads ≡ before + 1) }
{
    let word = pool[at.index()];
    let loads = before + 1;
    Loaded { word, loads }
}

// The walk from the root word of an address down to the entry that decides.
fn walk_down(pool: &[u32], shape: Shape, domain: u32, address: ByteAddr) -> Result<Decided, Refusal>
    requires fits { Fits shape (length pool.now) }
    requires domain_lt_domains { domain < shape.domains }
    ensures { result ≡ without_reach (found_at (form_of shape) (words pool.now) address.0
        (walk (form_of shape) (words pool.now) address.0 2 (1024 * domain + index 2 address.0))) }
{
    let mut height = ROOT;
    let mut loads = 0;
    let mut at = PoolWord::from(TABLE_WORDS * domain).after(index_in(ROOT, address));
    // Not a `for` over the heights: past its end it would have to answer for a leaf that leads, which there is not.
    loop {
        let got = load(pool, at, loads);
        loads = got.loads;
        match decode(shape, height, got.word) {
            Entry::Bad => return Err(Refusal::NotSound),
            Entry::Rights(entry) => {
                let right = words::right_at(entry, part_in(height, address));
                return Ok(Decided {
                    right,
                    entry,
                    loads,
                });
            }
            Entry::Leads(table, _) => {
                height -= 1;
                at = table.after(index_in(height, address));
            }
        }
    }
}

// What a lookup answers, but for how far it reaches: checks and steps ask no more.
pub fn decide(
    pool: &[u32],
    shape: Shape,
    domain: u32,
    address: ByteAddr,
) -> Result<Decided, Refusal>
    ensures { result ≡ without_reach (lookup_of pool.now shape domain address.0) }
{
    if !shape_fits(shape, pool.len()) {
        return Err(Refusal::NoShape);
    }
    if domain >= shape.domains {
        return Err(Refusal::NoDomain);
    }
    walk_down(pool, shape, domain, address)
}

// The right of a domain at an address, the entry that decides it, how many words were read, and how far the right
// reaches inside the entry's block.
pub fn lookup(
    pool: &[u32],
    shape: Shape,
    domain: u32,
    address: ByteAddr,
) -> Result<Deciding, Refusal>
    ensures { LooksUp pool.now shape domain address.0 result }
{
    let by = decide(pool, shape, domain, address)?;
    Ok(reach::reached(by.entry, by.loads, address))
}

// Whether an access of a kind passes on a right.
pub fn passes(kind: u32, right: u32) -> bool
    ensures { result ≡ passes_of kind right }
{
    match kind {
        LOAD => matches!(right, 1..=3),
        STORE => right == 2,
        FETCH => right == 3,
        _ => false,
    }
}
