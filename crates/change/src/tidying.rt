// Tidying: each table of a sound pool that its block does not want is given up, and its entry becomes the rights that
// it had. Words are met in the order of the pool, so the roots come first and only tables that stay are looked into.
ghost use Rattle.std.specs.Prelude.{◌+◌, ◌<◌, ◌≤◌, length};
ghost use Rattle.theory.specs.Pool.{words, SoundPool};
ghost use Rattle.table.specs.Shape.{Fits};
ghost use Rattle.table.specs.Map.{form_of};
ghost use Rattle.change.specs.Answers.{Tidies};
ghost use Rattle.change.specs.Runs.{Tidying, Looks, MiddleOwners, NextIs, NextIn};
ghost use Rattle.change.specs.Tidying.{AimedAt, Table, Place};

use crate::{Cursor, Ending, Guide, Store, make_stores};
use census::PLACES;
use refusals::Refusal;
use table::{ROOT, Shape, TABLE_WORDS};
use targets::UNPAINTED;
use words::PoolWord;

// The words of a root or a middle table, as an index of the pool.
const TABLE_SIZE: usize = 1024;

// What word `i` of the table at `base` is to become, where the root word `owner` leads to a middle table. A word that
// does not lead stays: most are eight rights, and searching for their target would say so too.
fn target_at(pool: &[u32], shape: Shape, owner: u32, base: PoolWord, i: u32) -> Option<u32>
    requires fits { Fits shape (length pool.now) × SoundPool (form_of shape) (words pool.now) }
    requires table { Table shape pool.now owner base.0 × (i < 1024) }
    ensures { AimedAt shape (base.0 + i) pool.now result }
{
    let k = base.after(i as usize).index();
    let w = pool[k];
    if w >= words::BIT_31 {
        return None;
    }
    if base.index() < (TABLE_WORDS * shape.domains) as usize {
        return targets::entry_target(pool, UNPAINTED, ROOT, w, (k % TABLE_SIZE) as u32);
    }
    targets::entry_target(pool, UNPAINTED, 1, w, owner % TABLE_WORDS * TABLE_WORDS + i)
}

// The first word from `from` on of the table at `base` whose table is given up.
fn next_given_up(pool: &[u32], shape: Shape, owner: u32, base: PoolWord, from: u32) -> Option<Store>
    requires fits { Fits shape (length pool.now) × SoundPool (form_of shape) (words pool.now) }
    requires table { Table shape pool.now owner base.0 × (from ≤ 1024) }
    ensures { NextIn shape Tidying pool.now 1 (base.0 + from) (base.0 + 1024) result }
{
    let mut i = from;
    // A `while`, since words that are eight rights are passed over many at a time.
    while i < TABLE_WORDS {
        let k = base.after(i as usize);
        let n = census::plain_ahead(pool, k, i);
        if n == 0 {
            if let Some(value) = target_at(pool, shape, owner, base, i) {
                let next = k.after(1);
                let on = Cursor {
                    phase: 1,
                    word: next,
                    past: next,
                };
                return Some(Store { at: k, value, on });
            }
        }
        i += n.max(1);
    }
    None
}

// The root, or the middle place, at `base`. No root word but its owner leads to a middle place. Tables that are not
// wanted are given up by the time it is met: where the owner no longer leads here, or there is none, the place holds
// what it held.
fn next_in_place(
    pool: &[u32],
    shape: Shape,
    owners: &[u32; PLACES],
    base: PoolWord,
    from: u32,
) -> Option<Store>
    requires fits { Fits shape (length pool.now) × SoundPool (form_of shape) (words pool.now) }
    requires middle_owners { MiddleOwners shape owners.now pool.now }
    requires place { Place shape base.0 × (from ≤ 1024) }
    ensures { NextIn shape Tidying pool.now 1 (base.0 + from) (base.0 + 1024) result }
{
    let roots = TABLE_WORDS * shape.domains;
    let first = base.index();
    if first < roots as usize {
        return next_given_up(pool, shape, 0, base, from);
    }
    let owner = owners[(first - roots as usize) / TABLE_SIZE];
    let root = PoolWord::from(owner);
    if owner < roots && pool[root.index()] as usize == first {
        return next_given_up(pool, shape, owner, base, from);
    }
    None
}

// The next store of a tidying: the roots in order of domain, then the middle places in order. Leaves hold no pointers.
pub fn next_tidying(
    pool: &[u32],
    shape: Shape,
    owners: &[u32; PLACES],
    from: Cursor,
) -> Option<Store>
    requires looks { Looks shape Tidying from pool.now }
    requires middle_owners { MiddleOwners shape owners.now pool.now }
    ensures { NextIs shape Tidying pool.now from.phase from.word.0 result }
{
    // The first place may be entered in its middle.
    let mut k = from.word.index();
    for place in k / TABLE_SIZE..(shape.domains + shape.middles) as usize {
        let base = TABLE_SIZE * place;
        let next = next_in_place(
            pool,
            shape,
            owners,
            PoolWord::from(base as u32),
            (k - base) as u32,
        );
        if next.is_some() {
            return next;
        }
        k = base + TABLE_SIZE;
    }
    None
}

// What a tidying goes by: the owners of the places as they were.
#[derive(Clone, Copy)]
pub struct ByOwners<'a> {
    pub owners: &'a [u32; PLACES],
}

impl Guide for ByOwners<'_> {
    ghost work = { λ g. Tidying };

    ghost owners = { λ g. g.owners.now };

    fn next_store(&self, pool: &[u32], shape: Shape, from: Cursor) -> Option<Store> {
        next_tidying(pool, shape, self.owners, from)
    }
}

// Makes a sound pool settled, with the same rights after every store.
pub fn tidy(pool: &mut [u32], shape: Shape, allowance: u32) -> Result<Ending, Refusal>
    ensures { Tidies pool.old shape allowance result pool.new }
{
    if !table::shape_fits(shape, pool.len()) {
        return Err(Refusal::NoShape);
    }
    let mut owners = [0u32; PLACES];
    if !census::census(pool, shape, &mut owners) {
        return Err(Refusal::NotSound);
    }
    // Nearly every reset finds a settled pool, in which nothing is to be given up.
    if targets::settled(pool, shape, &owners) {
        return Ok(Ending::Done(0));
    }
    let guide = ByOwners { owners: &owners };
    Ok(make_stores(pool, shape, 0, UNPAINTED, &guide, allowance))
}
