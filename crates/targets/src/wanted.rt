// Whether the tables of a sound pool are wanted, and from it, whether the pool is settled.
ghost use Rattle.std.specs.Prelude.{◌≡◌, true, ◌<◌, length};
ghost use Rattle.theory.specs.Pool.{words, SoundPool, right_of};
ghost use Rattle.theory.specs.Settled.{Settled};
ghost use Rattle.table.specs.Shape.{Fits};
ghost use Rattle.table.specs.Map.{form_of};
ghost use Rattle.places.specs.Count.{want};
ghost use Rattle.census.specs.Places.{max_places, place_height};
ghost use Rattle.census.specs.Census.{StandsAt, Owners};
ghost use Rattle.targets.specs.Targets.{Decides};
ghost use Rattle.targets.specs.Steps.{LeafIn};

use crate::{UNPAINTED, entry_target};
use census::{NONE, PLACES};
use table::Shape;

// Whether the table that stands at place `n`, that of a block, is wanted: with nothing painted, no rights can be its
// entry.
fn table_wanted(pool: &[u32], shape: Shape, n: usize, block: u32) -> bool
    requires fits { Fits shape (length pool.now) }
    requires sound_pool { SoundPool (form_of shape) (words pool.now) }
    requires n_lt_max_places { (n < max_places) × StandsAt pool.now shape n block }
    ensures { result ≡ want (right_of (form_of shape) (words pool.now)) (place_height n) block }
{
    let height = census::place_height(n);
    let place = census::place_word(shape, n);
    let e = place.entry();
    let number = census::block_in_domain(height, block);
    let target = entry_target(pool, UNPAINTED, height + 1, e, number);
    target.is_none()
}

// Whether place `n` is that of a middle table with a leaf, by the owners of the leaf places.
fn has_leaf(owners: &[u32; PLACES], n: usize, block: u32) -> bool
    ensures { result ≡ true → LeafIn owners.now n block }
{
    n < table::FIRST_LEAF
        && owners[table::FIRST_LEAF..]
            .iter()
            .any(|page| page / table::TABLE_WORDS == block)
}

// Whether a sound pool is settled: every table in it, by the owners of its places, is wanted. (In a sound pool a
// block that wants a table has one.) The leaves come first: a table with a leaf that is wanted is wanted too, so only
// one without leaves is searched.
#[inline(never)]
pub fn settled(pool: &[u32], shape: Shape, owners: &[u32; PLACES]) -> bool
    requires fits { Fits shape (length pool.now) }
    requires sound_pool { SoundPool (form_of shape) (words pool.now) }
    requires owners { Owners pool.now shape owners.now }
    ensures { Decides result (Settled (form_of shape) (words pool.now)) }
{
    for n in (0..PLACES).rev() {
        let owner = owners[n];
        if owner != NONE && !has_leaf(owners, n, owner) && !table_wanted(pool, shape, n, owner) {
            return false;
        }
    }
    true
}
