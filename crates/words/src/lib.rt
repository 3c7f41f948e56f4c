// What the rest is counted in: memory bytes and pool words kept apart, rights inside a 32-bit word, and regions
// rounded to memory words.
#![tactic(auto)]

ghost use Rattle.std.specs.Prelude.{◌≡◌, true, ◌+◌, ◌/◌, ◌<◌, ◌≤◌, length, ◌==◌, ◌&&◌, fold};
ghost use Rattle.std.specs.List.{prefix_len};
ghost use Rattle.words.specs.Rights.{right_at, eight_of, sixteen_of, good_rights};
ghost use Rattle.words.specs.Region.{rounded_length, region_of};
ghost use Rattle.words.specs.Passing.{SkipsRights, AllSame};

use refusals::Refusal;

mod stretches; // stretches.rt: how far one right goes inside an entry

pub use stretches::{Stretch, stretch_at};

// Bit 31, which is set in a root or middle entry exactly where it is eight rights.
pub const BIT_31: u32 = 0x8000_0000;

// A byte address of the memory that the table protects.
#[derive(Clone, Copy, PartialEq, Eq)]
pub struct ByteAddr(pub u32);

// The number of a word of the pool. It has a type of its own, so that the compiler refuses it where an address is
// wanted.
#[derive(Clone, Copy, PartialEq, Eq)]
pub struct PoolWord(pub usize);

// The memory words `lo ≤ w < hi`; memory word `w` is the four bytes from `4 * w` on.
#[derive(Clone, Copy, PartialEq, Eq)]
pub struct Region {
    pub lo: u32,
    pub hi: u32,
}

// The pool's first word.
pub const FIRST_WORD: PoolWord = PoolWord(0);

// A number from outside becomes an address.
impl From<u32> for ByteAddr {
    ghost from_gives = { λ n a. a ≡ record { 0 = n } };

    fn from(n: u32) -> ByteAddr {
        ByteAddr(n)
    }
}

// An address becomes a number again, to be split or handed outside.
impl From<ByteAddr> for u32 {
    ghost from_gives = { λ a n. n ≡ a.0 };

    fn from(a: ByteAddr) -> u32 {
        a.0
    }
}

// A pointer entry, or a number that is reckoned from the shape, as the pool word number that it is.
impl From<u32> for PoolWord {
    ghost from_gives = { λ n w. w ≡ record { 0 = n } };

    fn from(n: u32) -> PoolWord {
        PoolWord(n as usize)
    }
}

impl PoolWord {
    // Where the word stands in the slice that is the pool.
    pub fn index(self) -> usize
        ensures { result ≡ self.0 }
    {
        self.0
    }

    // The word `i` words on.
    pub fn after(self, i: usize) -> PoolWord
        requires { self.0 + i < 4294967296 }
        ensures { result ≡ record { 0 = self.0 + i } }
    {
        PoolWord(self.0 + i)
    }

    // The entry that leads to the table that begins at the word.
    pub fn entry(self) -> u32
        requires { self.0 < 4294967296 }
        ensures { result ≡ self.0 }
    {
        self.index() as u32
    }
}

// The right in bits 2i+1 and 2i. A right is a number and no enum: entries are put together of rights, and taken apart,
// by arithmetic (`eight_of`).
pub fn right_at(w: u32, i: u32) -> u32
    requires { i < 16 }
    ensures { result ≡ right_at w i }
{
    (w >> (2 * i)) % 4
}

// A root or middle entry that gives one right to all of its block.
pub fn eight_of(right: u32) -> u32
    requires { right < 4 }
    ensures { result ≡ eight_of right }
{
    BIT_31 + 0x5555 * right
}

// A leaf entry that gives one right to its sixteen words.
pub fn sixteen_of(right: u32) -> u32
    requires { right < 4 }
    ensures { result ≡ sixteen_of right }
{
    0x5555_5555 * right
}

// Bit 31 set and bits 30 to 16 zero, as one range: whoever walks a table asks this of every entry.
pub fn good_rights(w: u32) -> bool
    ensures { result ≡ good_rights w }
{
    BIT_31 <= w && w < 0x8001_0000
}

// Whether the words are all eight rights. Each is asked, with no way out at the first that is not, as `all` would have:
// so the compiler tests four at a time, where it knows how many there are.
fn all_rights(words: &[u32]) -> bool
    ensures { result ≡ fold (λ all w. all && good_rights w) true words.now }
{
    words.iter().fold(true, |all, w| all & good_rights(*w))
}

// Whether the words are all `value`, each asked as above. It is a fold of its own: one over any test would need a ghost
// argument for what the test says, and two clauses that tie them.
fn all_are(words: &[u32], value: u32) -> bool
    ensures { result ≡ fold (λ all w. all && (w == value)) true words.now }
{
    words.iter().fold(true, |all, w| all & (*w == value))
}

// How many of the words stand before the first that is not eight rights.
fn rights_ahead(words: &[u32]) -> usize
    ensures { (result ≤ length words.now) × (result ≡ prefix_len good_rights words.now) }
{
    words.iter().take_while(|w| good_rights(**w)).count()
}

// How many of them are passed over `step` at a time, up to some that are not all eight rights.
fn pass_by(words: &[u32], step: usize) -> usize
    requires { 0 < step }
    ensures { (result ≤ length words.now) × (result ≤ prefix_len good_rights words.now) }
{
    let whole = words
        .chunks_exact(step)
        .take_while(|part| all_rights(part))
        .count();
    whole * step
}

// How many of the `count` words from `from` on stand before the first that is not eight rights. Most entries are:
// they are passed over 32 at a time, and near that one four at a time.
pub fn skip_rights(pool: &[u32], from: PoolWord, count: usize) -> usize
    requires { from.0 + count ≤ length pool.now }
    ensures { SkipsRights pool.now from.0 (from.0 + count) (from.0 + result) }
{
    let first = from.index();
    let words = &pool[first..first + count];
    let wide = pass_by(words, 32);
    let near = wide + pass_by(&words[wide..], 4);
    near + rights_ahead(&words[near..])
}

// Whether the `count` words from `at` on all are `value`.
pub fn all_same(pool: &[u32], at: PoolWord, count: usize, value: u32) -> bool
    requires { at.0 + count ≤ length pool.now }
    ensures { (result ≡ true → AllSame pool.now at.0 count value)
        × (AllSame pool.now at.0 count value → result ≡ true) }
{
    let first = at.index();
    all_are(&pool[first..first + count], value)
}

// How many words a length in bytes takes that begins `low` bytes into a word. What is left of whole words is rounded by
// itself, since the sum of all could wrap.
fn words_from(low: u32, length: u32) -> u32
    requires { low < 4 }
    ensures { result ≡ rounded_length low length / 4 }
{
    length / 4 + (low + length % 4).div_ceil(4)
}

// The words of a start and a length in bytes.
pub fn round_region(start: ByteAddr, length: u32) -> Result<Region, Refusal>
    ensures { result ≡ region_of start.0 length }
{
    if length == 0 {
        return Err(Refusal::EmptyRegion);
    }
    let lo = start.0 / 4;
    let hi = lo + words_from(start.0 % 4, length);
    if hi > 0x4000_0000 {
        return Err(Refusal::PastTheEnd);
    }
    Ok(Region { lo, hi })
}
