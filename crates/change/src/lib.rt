// Changes and tidyings: a plan in lent words, stores that each leave a safe pool, a cut wherever the allowance ends.
#![tactic(auto)]

ghost use Rattle.std.specs.Prelude.{◌≡◌, ℕ, ◌+◌, ◌-◌, ◌<◌, ◌≤◌, List, true, length, set, unwrap_or};
ghost use Rattle.table.specs.Shape.{Fits, InRange};
ghost use Rattle.places.specs.Count.{heights, blocks};
ghost use Rattle.targets.specs.Targets.{entry_blocks};
ghost use Rattle.plan.specs.Plan.{InTable, of_table, of_new, entry_after, entry_before, table_after, ends_after, after};
ghost use Rattle.plan.specs.Plan.{new_at, new_word, phase_of, PlanFits, plan_in};
ghost use Rattle.plan.specs.Planning.{Regular};
ghost use Rattle.plan.specs.Aims.{aim_of};
ghost use Rattle.change.specs.Answers.{Changes};
ghost use Rattle.change.specs.Cuts.{CutAt, Due};
ghost use Rattle.change.specs.Requests.{RegionIs, RequestIs};
ghost use Rattle.change.specs.Runs.{Work, Looks, NextIs, Ready, Told, Ends};

use census::PLACES;
use plan::{Edge, PLAN_WORDS};
use refusals::Refusal;
use table::{ROOT, Shape, TABLE_WORDS};
use targets::Paint;
use words::{ByteAddr, PoolWord};

mod ahead; // ahead.rt: which store of a change comes next
mod tidying; // tidying.rt: which store of a tidying does

use ahead::ByPlan;
pub use tidying::tidy;

// How the stores of a change or a tidying end: all are made, so many; or the allowance cut them short.
#[derive(Clone, Copy, Debug, PartialEq, Eq)]
pub enum Ending {
    Done(u32),
    Cut,
}

// Where a run stands: the phase, and in it the word. The words from there up to `past` are a row, to be looked at one
// by one. A phase is a number, from 1 on, as in `midway`, which tells what a cut leaves by which phases come before it.
#[derive(Clone, Copy)]
pub struct Cursor {
    pub phase: u32,
    pub word: PoolWord,
    pub past: PoolWord,
}

const START: Cursor = Cursor {
    phase: 1,
    word: words::FIRST_WORD,
    past: words::FIRST_WORD,
};

// The next store: where, what, and where the run goes on.
#[derive(Clone, Copy)]
pub struct Store {
    pub at: PoolWord,
    pub value: u32,
    pub on: Cursor,
}

// Whether word `k` is one of the `n` words from `t` on.
fn in_table(t: PoolWord, n: usize, k: PoolWord) -> bool
    requires { t.0 + n < 4294967296 }
    ensures { result ≡ InTable t.0 n k.0 }
{
    (t.index()..t.index() + n).contains(&k.index())
}

// Which word of the table that begins at `t` word `k` is.
fn entry_number(t: PoolWord, k: PoolWord) -> u32
    requires { (t.0 ≤ k.0) × (k.0 < t.0 + 1024) }
    ensures { result ≡ k.0 - t.0 }
{
    (k.index() - t.index()) as u32
}

// Whether word `k` is of the table of a height to which the edge's new entry leads.
fn of_table(height: u32, edge: Edge, k: PoolWord) -> bool
    ensures { result ≡ of_table height edge k.0 }
{
    let begin = PoolWord::from(edge.last);
    edge.last < words::BIT_31 && in_table(begin, table::size_of(height) as usize, k)
}

// The entry of a height that stood there before: the word of the table, or what the entry above, `old`, said.
fn entry_before(height: u32, old: u32, n: u32, x: u32) -> u32
    ensures { result ≡ entry_before height old n x }
{
    if old < words::BIT_31 {
        x
    } else {
        targets::virtual_entry(height, old, n)
    }
}

// What the entry of a height is to hold that has the number `n` in the domain, where the word holds `x` and the entry
// above it was `old`.
fn entry_after(plan: &[u32; PLAN_WORDS], height: u32, old: u32, n: u32, x: u32) -> u32
    requires { ((plan_in plan.now).paint.right < 4) × (n < entry_blocks height) }
    ensures { result ≡ entry_after (plan_in plan.now) height n (entry_before height old n x) }
{
    let paint = plan::paint_in(plan);
    let was = entry_before(height, old, n, x);
    if height == 0 {
        return targets::paint_word(paint, was, n);
    }
    let ends = plan::ends_in(plan, height - 1);
    if n == ends.first.number {
        return ends.first.last;
    }
    if n == ends.last.number {
        return ends.last.last;
    }
    if n < ends.first.number || ends.last.number < n {
        return was;
    }
    words::eight_of(paint.right)
}

// What word `k` of the table of an edge is to hold.
fn table_after(plan: &[u32; PLAN_WORDS], height: u32, edge: Edge, k: PoolWord, x: u32) -> u32
    requires plan_bound { ((plan_in plan.now).paint.right < 4) × (height < heights) }
    requires number_bound { (edge.number < blocks height) × (of_table height edge k.0 ≡ true) }
    ensures { result ≡ table_after (plan_in plan.now) height edge (k.0 - edge.last) x }
{
    let j = entry_number(PoolWord::from(edge.last), k);
    let n = table::size_of(height) * edge.number + j;
    entry_after(plan, height, edge.old, n, x)
}

// What word `k` is to hold if it is of the table of an edge of a height.
fn ends_after(plan: &[u32; PLAN_WORDS], height: u32, k: PoolWord, x: u32) -> Option<u32>
    requires { PlanFits (plan_in plan.now) × (height < heights) }
    ensures { (y : ℕ) → unwrap_or result y ≡ ends_after (plan_in plan.now) height k.0 x y }
{
    let ends = plan::ends_in(plan, height);
    if of_table(height, ends.first, k) {
        return Some(table_after(plan, height, ends.first, k, x));
    }
    if of_table(height, ends.last, k) {
        return Some(table_after(plan, height, ends.last, k, x));
    }
    None
}

// What word `k`, which holds `x`, is to hold. A word that the plan does not know stays as it is.
#[tactic(auto, unfolding(plan::specs::Plan::after))]
fn final_word(plan: &[u32; PLAN_WORDS], k: PoolWord, x: u32) -> u32
    requires { PlanFits (plan_in plan.now) }
    ensures { result ≡ after (plan_in plan.now) k.0 x }
{
    let root = PoolWord::from(TABLE_WORDS * plan::domain_in(plan));
    if in_table(root, TABLE_WORDS as usize, k) {
        // What stands above a root always leads to it.
        return entry_after(plan, ROOT, 0, entry_number(root, k), x);
    }
    if let Some(y) = ends_after(plan, 1, k, x) {
        return y;
    }
    ends_after(plan, 0, k, x).unwrap_or(x)
}

// Whether word `k` is of the table of an edge that had none.
fn of_new_table(height: u32, edge: Edge, k: PoolWord) -> bool
    ensures { result ≡ of_new height edge k.0 }
{
    edge.old >= words::BIT_31 && of_table(height, edge, k)
}

// Whether word `k` is of a new table of a height.
fn new_at(plan: &[u32; PLAN_WORDS], height: u32, k: PoolWord) -> bool
    ensures { result ≡ new_at (plan_in plan.now) height k.0 }
{
    let ends = plan::ends_in(plan, height);
    of_new_table(height, ends.first, k) || of_new_table(height, ends.last, k)
}

#[tactic(auto, unfolding(plan::specs::Plan::new_word))]
fn new_word(plan: &[u32; PLAN_WORDS], k: PoolWord) -> bool
    ensures { result ≡ new_word (plan_in plan.now) k.0 }
{
    new_at(plan, 1, k) || new_at(plan, 0, k)
}

// The phase in which word `k`, which holds `x`, is stored: words that lead are given up first, then new tables are
// filled, then the rest is linked.
fn phase_of(shape: Shape, plan: &[u32; PLAN_WORDS], k: PoolWord, x: u32) -> u32
    requires { InRange shape }
    ensures { result ≡ phase_of shape (plan_in plan.now) k.0 x }
{
    if new_word(plan, k) {
        return 2;
    }
    // Most words do not lead, and then it does not matter where the leaves begin.
    let leads = x < words::BIT_31 && k.index() < table::first_place(shape, 0).index();
    if leads { 1 } else { 3 }
}

// The one store. All stores of a change and of a tidying are made here, and none but one that is due: the pool is
// then what a cut leaves. The shape, the domain and the paint say only, for the contract, which aim it is due to.
fn put(pool: &mut [u32], shape: Shape, domain: u32, paint: Paint, at: PoolWord, value: u32)
    requires { Due shape (aim_of domain paint) pool.old at.0 value }
    ensures stored { pool.new ≡ set pool.old at.0 value }
    ensures cut { (old : List ℕ) (n : ℕ) → CutAt shape (aim_of domain paint) old n pool.old
        → CutAt shape (aim_of domain paint) old (n + 1) pool.new }
{
    pool[at.index()] = value;
}

// What a work goes by: it says which store comes next, from the cursor on. A change goes by its plan, a tidying by the
// owners of the places as they were.
trait Guide {
    ghost work: { Self → Work };

    ghost owners: { Self → List ℕ };

    fn next_store(&self, pool: &[u32], shape: Shape, from: Cursor) -> Option<Store>
        requires looks { Looks shape (work self.now) from pool.now }
        requires told { Told shape (work self.now) (owners self.now) pool.now }
        ensures { NextIs shape (work self.now) pool.now from.phase from.word.0 result };
}

// The one loop: it asks which store comes next, and makes it, until there is none or none is left. Besides `put`, and
// `change` and `tidy`, which call it once, nothing holds the pool to write in; and nothing else is told the
// allowance. It is not inlined, since the search for the next store would then stand on the stack of the planning too.
#[inline(never)]
fn make_stores<G: Guide>(
    pool: &mut [u32],
    shape: Shape,
    domain: u32,
    paint: Paint,
    guide: &G,
    allowance: u32,
) -> Ending
    requires ready { Ready shape (aim_of domain paint) (G.work guide.now) pool.old }
    requires told { Told shape (G.work guide.now) (G.owners guide.now) pool.old }
    ensures { Ends pool.old shape (aim_of domain paint) allowance result pool.new }
{
    let mut left = allowance;
    let mut from = START;
    while let Some(Store { at, value, on }) = guide.next_store(pool, shape, from) {
        if left == 0 {
            return Ending::Cut;
        }
        put(pool, shape, domain, paint, at, value);
        left -= 1;
        from = on;
    }
    Ending::Done(allowance - left)
}

// A request that is in order up to refusal 5. All is decided before the first store: where it is not refused, its plan is
// in the words that were lent for it.
fn plan_region(
    pool: &[u32],
    shape: Shape,
    owners: &mut [u32; PLACES],
    domain: u32,
    paint: Paint,
    plan: &mut [u32; PLAN_WORDS],
) -> Result<(), Refusal>
    requires fits { Fits shape (length pool.now) }
    requires domain_lt_domains { (domain < shape.domains) × Regular paint }
    ensures { RegionIs pool.now shape (aim_of domain paint) (plan_in plan.new) result }
{
    if !census::census(pool, shape, owners) {
        return Err(Refusal::NotSound);
    }
    if !targets::settled(pool, shape, owners) {
        return Err(Refusal::NotSettled);
    }
    if !plan::plan_change(pool, shape, owners, domain, paint, plan) {
        return Err(Refusal::NoRoom);
    }
    Ok(())
}

// What is refused is refused here, in the paper's order.
fn plan_request(
    pool: &[u32],
    shape: Shape,
    owners: &mut [u32; PLACES],
    domain: u32,
    start: ByteAddr,
    length: u32,
    right: u32,
    plan: &mut [u32; PLAN_WORDS],
) -> Result<(), Refusal>
    ensures { RequestIs pool.now shape domain start.0 length right (plan_in plan.new)
        result }
{
    if !table::shape_fits(shape, pool.len()) {
        return Err(Refusal::NoShape);
    }
    if domain >= shape.domains {
        return Err(Refusal::NoDomain);
    }
    if right > 3 {
        return Err(Refusal::NoRight);
    }
    let region = words::round_region(start, length)?;
    let paint = Paint {
        lo: region.lo,
        hi: region.hi,
        right,
    };
    plan_region(pool, shape, owners, domain, paint, plan)
}

// Gives a domain a right on every word that a region covers. Whatever the pool holds and whatever the numbers are, it
// answers; a refusal changes no word, and a cut leaves each word with its old right or, where it is covered, with its
// new one.
pub fn change(
    pool: &mut [u32],
    shape: Shape,
    domain: u32,
    start: ByteAddr,
    length: u32,
    right: u32,
    allowance: u32,
) -> Result<Ending, Refusal>
    ensures { Changes pool.old shape domain start.0 length right allowance result pool.new }
{
    let mut owners = [0u32; PLACES];
    let mut plan = [0u32; PLAN_WORDS];
    plan_request(
        pool,
        shape,
        &mut owners,
        domain,
        start,
        length,
        right,
        &mut plan,
    )?;
    let domain = plan::domain_in(&plan);
    let paint = plan::paint_in(&plan);
    let guide = ByPlan { plan: &plan };
    Ok(make_stores(pool, shape, domain, paint, &guide, allowance))
}
