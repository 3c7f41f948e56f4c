// Whether a leaf as it stands has two rights in a sub-block.
ghost use Rattle.std.specs.Prelude.{◌≡◌, true, ◌+◌, ◌<◌, ◌≤◌, length};
ghost use Rattle.theory.specs.Pool.{words};
ghost use Rattle.targets.specs.Targets.{Readable};
ghost use Rattle.targets.specs.Steps.{EvenEntries, LeafMixed, SeenMixed};

use crate::Paint;
use words::PoolWord;

// Whether the eight entries of a leaf from `at` on are one right's.
fn even_entries(pool: &[u32], at: PoolWord) -> bool
    requires { at.0 + 8 ≤ length pool.now }
    ensures { EvenEntries pool.now at.0 → result ≡ true }
{
    let same = words::sixteen_of(words::right_at(pool[at.index()], 0));
    words::all_same(pool, at, 8, same)
}

// Whether a sub-block of the leaf has two rights: the entries of each are looked at all at once.
fn leaf_mixed(pool: &[u32], leaf: PoolWord) -> bool
    requires { (leaf.0 < 2147483648) × (leaf.0 + 64 ≤ length pool.now) }
    ensures { result ≡ true → LeafMixed (words pool.now) leaf.0 }
{
    (0..8).any(|i| !even_entries(pool, leaf.after(8 * i)))
}

// Whether the entry leads to a leaf that is seen to have two rights in a sub-block, and nothing is painted. The
// settled test asks this of every leaf, and of nearly every one it is so.
pub fn seen_mixed(pool: &[u32], paint: Paint, height: u32, e: u32) -> bool
    requires { Readable pool.now height e }
    ensures { result ≡ true → SeenMixed (words pool.now) paint height e }
{
    paint.hi <= paint.lo && height == 1 && e < words::BIT_31 && leaf_mixed(pool, PoolWord::from(e))
}
