// The geometry of the table, told once, by the height of an entry (0 in a leaf, 1 in a middle table, 2 in a root): how
// many memory words it stands for, how many rights it has and how many entries its table; which words lead; and where
// tables stand in the pool. A height is a number and no enum: it is one in every law, the laws go by induction over it,
// and the code reckons with it as they do (`height - 1`).
ghost use Rattle.std.specs.Prelude.{◌≡◌, ◌+◌, ◌*◌, ◌/◌, ◌<◌};
ghost use Rattle.table.specs.Shape.{InRange, first_place, places, size};
ghost use Rattle.table.specs.Map.{parts, leads};
ghost use Rattle.table.specs.Entries.{block_words, level_of, same_of};
ghost use Rattle.table.specs.Wants.{words_in};

use crate::Shape;
use words::PoolWord;

// The height of an entry of a root.
pub const ROOT: u32 = 2;

// The words of a root or a middle table, and of a leaf.
pub const TABLE_WORDS: u32 = 1024;

pub const LEAF_WORDS: u32 = 64;

// The bytes of the block of an entry: 4 MB in a root, a page in a middle table, 64 in a leaf.
pub const BLOCK_BYTES: u32 = 4194304;

pub const PAGE_BYTES: u32 = 4096;

pub const LINE_BYTES: u32 = 64;

// The blocks of 4 MB and the pages that a domain has.
pub const DOMAIN_BLOCKS: u32 = 1024;

pub const DOMAIN_PAGES: u32 = 1048576;

// How many entries a table has.
pub fn size_of(height: u32) -> u32
    ensures { result ≡ size height }
{
    match height {
        0 => LEAF_WORDS,
        _ => TABLE_WORDS,
    }
}

// How many rights an entry has.
pub fn parts_of(height: u32) -> u32
    ensures { result ≡ parts height }
{
    match height {
        0 => 16,
        _ => 8,
    }
}

// How many memory words the block of an entry has.
pub fn block_words(height: u32) -> u32
    ensures { result ≡ block_words height }
{
    match height {
        0 => LINE_BYTES / 4,
        1 => PAGE_BYTES / 4,
        _ => BLOCK_BYTES / 4,
    }
}

// How many memory words one of its rights covers.
pub fn part_words(height: u32) -> u32
    ensures { result ≡ words_in height }
{
    match height {
        0 => 1,
        1 => PAGE_BYTES / 32,
        _ => BLOCK_BYTES / 32,
    }
}

// How many entries of the height `below` stand for one right of the entry above them.
pub fn part_entries(below: u32) -> u32
    ensures { result ≡ size below / 8 }
{
    match below {
        0 => LEAF_WORDS / 8,
        _ => TABLE_WORDS / 8,
    }
}

// All of these of one height: the entries of a table, the rights of an entry, and the memory words that one of them and
// that all of them cover.
#[derive(Clone, Copy)]
pub struct Level {
    pub entries: u32,
    pub parts: u32,
    pub step: u32,
    pub block: u32,
}

pub fn level_of(height: u32) -> Level
    ensures { result ≡ level_of height }
{
    Level {
        entries: size_of(height),
        parts: parts_of(height),
        step: part_words(height),
        block: block_words(height),
    }
}

// Whether the word `w` leads to a table: no word of a leaf does.
pub fn leads(height: u32, w: u32) -> bool
    ensures { result ≡ leads height w }
{
    height != 0 && w < words::BIT_31
}

// The entry that says one right for its whole block.
pub fn same_entry(height: u32, right: u32) -> u32
    requires { right < 4 }
    ensures { result ≡ same_of height right }
{
    match height {
        0 => words::sixteen_of(right),
        _ => words::eight_of(right),
    }
}

// How many places there are for tables of a height: leaves, or middle tables.
pub fn places_of(shape: Shape, height: u32) -> u32
    ensures { result ≡ places shape height }
{
    match height {
        0 => shape.leaves,
        _ => shape.middles,
    }
}

// The pool word where these places begin.
pub fn first_place(shape: Shape, height: u32) -> PoolWord
    requires { InRange shape }
    ensures { result ≡ record { 0 = first_place shape height } }
{
    match height {
        0 => PoolWord::from(TABLE_WORDS * (shape.domains + shape.middles)),
        _ => PoolWord::from(TABLE_WORDS * shape.domains),
    }
}

// The root word of a block of a domain.
pub fn root_word(domain: u32, block: u32) -> PoolWord
    requires { (domain < 4194303) × (block < 1024) }
    ensures { result ≡ record { 0 = 1024 * domain + block } }
{
    PoolWord::from(TABLE_WORDS * domain).after(block as usize)
}
