// The plan of a change, in lent words: the edges of the region, what they come to, and places for their new tables.
// A height here is that of the tables that may stand for a block: 0 for pages, which may have leaves, 1 for blocks of
// 4 MB, which may have middle tables.
#![tactic(auto)]

ghost use Rattle.std.specs.Prelude.{◌≡◌, ℕ, ◌+◌, ◌*◌, ◌<◌, ◌≤◌, length};
ghost use Rattle.theory.specs.Pool.{words};
ghost use Rattle.theory.specs.Settled.{Settled};
ghost use Rattle.table.specs.Shape.{InRange, Fits, places};
ghost use Rattle.table.specs.Map.{form_of};
ghost use Rattle.places.specs.Count.{heights, blocks};
ghost use Rattle.census.specs.Places.{max_places, first_number};
ghost use Rattle.census.specs.Census.{Owners};
ghost use Rattle.plan.specs.Plan.{ends_in, plan_in, put_edge};
ghost use Rattle.plan.specs.Planning.{Regular};
ghost use Rattle.plan.specs.Edges.{PlansChange, PlansEnds, edge_for, edge_at, entry_at, ReadableRoot, RootGives};
ghost use Rattle.plan.specs.Edges.{kept_at, FreeIs, TakesPlace};

use census::PLACES;
use table::{Shape, TABLE_WORDS};
use targets::Paint;
use words::PoolWord;

mod keeping; // keeping.rt: the tables that stay
mod layout; // layout.rt: how a plan lies in its words

pub use layout::{PLAN_WORDS, domain_in, ends_in, paint_in};

// What a pointer holds while the place of its new table is still to be found: it leads, and no pool word has this
// number. An Option would take another of the lent words.
pub const PENDING: u32 = 0x7FFF_FFFF;

// A block or a page at an end of the region: its number in the domain, the entry that it had, and the entry that it
// will have. Of a page in a block of eight rights the old entry is the eight rights that stand for it.
#[derive(Clone, Copy)]
pub struct Edge {
    pub number: u32,
    pub old: u32,
    pub last: u32,
}

// The edges of one height. Where the region begins and ends in one block, they are one.
#[derive(Clone, Copy)]
pub struct Ends {
    pub first: Edge,
    pub last: Edge,
}

// An edge before places are given out. A table that it had stays where it is.
fn edge_of(number: u32, old: u32, target: Option<u32>) -> Edge
    ensures { result ≡ edge_for number old target }
{
    let last = match target {
        Some(w) => w,
        None if old < words::BIT_31 => old,
        None => PENDING,
    };
    Edge { number, old, last }
}

// The root entry of a block.
fn root_entry(pool: &[u32], domain: u32, block: u32) -> u32
    requires readable_root { ReadableRoot pool.now domain }
    requires domain_bound { (domain < 4) × (block < 1024) }
    ensures { result ≡ words pool.now (1024 * domain + block) }
{
    let word = table::root_word(domain, block);
    pool[word.index()]
}

// The entry of a block; of a page in a block of eight rights, the eight rights that stand for it.
fn old_entry(pool: &[u32], height: u32, domain: u32, n: u32) -> u32
    requires readable_root { ReadableRoot pool.now domain }
    requires height_lt_heights { (height < heights) × (domain < 4) × (n < blocks height) }
    ensures { result ≡ entry_at (words pool.now) height domain n }
{
    if height == 1 {
        return root_entry(pool, domain, n);
    }
    let root = root_entry(pool, domain, n / TABLE_WORDS);
    if root >= words::BIT_31 {
        return targets::virtual_entry(1, root, n);
    }
    let page = PoolWord::from(root).after((n % TABLE_WORDS) as usize);
    pool[page.index()]
}

// The edge of a block, before places are given out: where a new table is wanted, its pointer waits.
fn draft_edge(pool: &[u32], height: u32, domain: u32, paint: Paint, n: u32) -> Edge
    requires readable_root { ReadableRoot pool.now domain }
    requires height_lt_heights { (height < heights) × (domain < 4) × (n < blocks height) × (paint.right < 4) }
    ensures { (R : ℕ → ℕ) → RootGives (words pool.now) domain R
        → result ≡ edge_at (words pool.now) domain paint R height n }
{
    let old = old_entry(pool, height, domain, n);
    let target = targets::entry_target(pool, paint, height + 1, old, n);
    edge_of(n, old, target)
}

// The first place from `from` on, below `to`, where no kept table stands. Places that the change gives up count as
// free; a place that a table of any domain keeps does not.
fn next_free(
    owners: &[u32; PLACES],
    height: u32,
    domain: u32,
    plan: &[u32; PLAN_WORDS],
    from: u32,
    to: u32,
) -> Option<u32>
    requires from_le_to { (from ≤ to) × (first_number height + to ≤ max_places) }
    ensures { FreeIs (kept_at owners.now height domain (ends_in plan.now height)) from to result }
{
    let base = census::first_number(height);
    let ends = layout::ends_in(plan, height);
    (from..to).find(|p| !keeping::is_kept(height, domain, ends, owners[(base + *p) as usize]))
}

// A new table, of the edge whose words begin at `i`, takes the lowest place of its height, from `from` on, that no
// kept table has. Answers from which place on the next is looked for, or None where no place is left.
fn take_place(
    owners: &[u32; PLACES],
    shape: Shape,
    height: u32,
    domain: u32,
    plan: &mut [u32; PLAN_WORDS],
    i: usize,
    from: u32,
) -> Option<u32>
    requires in_range { InRange shape }
    requires from_bound { (from ≤ places shape height) × (i < 14) }
    ensures { TakesPlace (kept_at owners.now height domain (ends_in plan.old height)) from
        shape height i plan.old plan.new result }
{
    let old = plan[i + 1];
    let last = plan[i + 2];
    if last >= words::BIT_31 || old < words::BIT_31 {
        return Some(from);
    }
    let count = table::places_of(shape, height);
    let place = next_free(owners, height, domain, plan, from, count)?;
    let table = table::first_place(shape, height).after((table::size_of(height) * place) as usize);
    plan[i + 2] = table.entry();
    Some(place + 1)
}

// The edges of a height, with places for their new tables in the order of their blocks; or a new table finds none.
// Where both edges are one, its block is searched once, since that is the longest part of planning.
fn plan_ends(
    pool: &[u32],
    shape: Shape,
    owners: &[u32; PLACES],
    height: u32,
    domain: u32,
    paint: Paint,
    plan: &mut [u32; PLAN_WORDS],
) -> bool
    requires fits { Fits shape (length pool.now) }
    requires settled { Settled (form_of shape) (words pool.now) }
    requires owners { Owners pool.now shape owners.now }
    requires height_lt_heights { (height < heights) × (domain < shape.domains) × Regular paint }
    ensures { PlansEnds shape domain paint (words pool.now) height plan.old
        plan.new result }
{
    let long = table::block_words(height + 1);
    let begin = paint.lo / long;
    let end = (paint.hi - 1) / long;
    let f = layout::edge_index(height, true);
    let l = layout::edge_index(height, false);
    let first = draft_edge(pool, height, domain, paint, begin);
    layout::put_edge(plan, f, first);
    if begin == end {
        layout::put_edge(plan, l, first);
        let next = take_place(owners, shape, height, domain, plan, f, 0);
        layout::put_edge(plan, l, layout::edge_in(plan, f));
        return next.is_some();
    }
    let last = draft_edge(pool, height, domain, paint, end);
    layout::put_edge(plan, l, last);
    let Some(next) = take_place(owners, shape, height, domain, plan, f, 0) else {
        return false;
    };
    take_place(owners, shape, height, domain, plan, l, next).is_some()
}

// The plan of a change, before its first store: which entries it ends with, and where its new tables stand. False
// where the finished rights need more tables than there are places; the plan's words then say nothing. By value, in an
// Option, it would be copied into whoever asks it.
pub fn plan_change(
    pool: &[u32],
    shape: Shape,
    owners: &[u32; PLACES],
    domain: u32,
    paint: Paint,
    plan: &mut [u32; PLAN_WORDS],
) -> bool
    requires fits { Fits shape (length pool.now) }
    requires settled { Settled (form_of shape) (words pool.now) }
    requires owners { Owners pool.now shape owners.now }
    requires domain_lt_domains { domain < shape.domains }
    requires regular { Regular paint }
    ensures { PlansChange shape domain paint (words pool.now) result (plan_in plan.new) }
{
    plan[0] = domain;
    plan[1] = paint.lo;
    plan[2] = paint.hi;
    plan[3] = paint.right;
    // Of the blocks first, then of the pages.
    for height in (0..2).rev() {
        if !plan_ends(pool, shape, owners, height, domain, paint, plan) {
            return false;
        }
    }
    true
}
