// Which store a change makes next. A plan changes words of few tables, and between them there is nothing to do.
ghost use Rattle.std.specs.Prelude.{◌+◌, ◌<◌, ◌≤◌, [], length};
ghost use Rattle.places.specs.Count.{heights, blocks};
ghost use Rattle.plan.specs.Plan.{PlanFits, plan_in};
ghost use Rattle.change.specs.Runs.{Change, Looks, NextIs, NextIn};
ghost use Rattle.change.specs.Ahead.{Ahead, Outside, EntriesIdle, TableIdle, NotNew, HighIdle, LowIdle, NewIdle};
ghost use Rattle.change.specs.Ahead.{Idle, EntriesBefore, NextRow, PlainWords};

use crate::{Cursor, Guide, Store, final_word, phase_of};
use plan::{Edge, PLAN_WORDS};
use table::{ROOT, Shape, TABLE_WORDS};
use words::PoolWord;

// The words from `from` up to `past`.
#[derive(Clone, Copy)]
pub struct Span {
    pub from: PoolWord,
    pub past: PoolWord,
}

// The first of two rows: the words from `k` on of those from `start` up to `past`, or `best` where that comes before
// them.
fn nearer(k: PoolWord, start: PoolWord, past: PoolWord, best: Span) -> Span
    requires { k.0 ≤ best.from.0 }
    ensures { Ahead k.0 best (Outside start.0 past.0) result }
{
    let here = k.index();
    let first = start.index();
    let end = past.index();
    if end <= here || end <= first || best.from.index() <= first {
        return best;
    }
    let from = if first <= here { k } else { start };
    Span { from, past }
}

// How many of the `size` entries from the one numbered `begin` on come before entry `n`.
fn entries_before(size: u32, begin: u32, n: u32) -> u32
    ensures { EntriesBefore size begin n result }
{
    n.saturating_sub(begin).min(size)
}

// Of a table that stays, whose first entry has the number `begin` in the domain, the entries that the region meets.
fn near_entries(
    plan: &[u32; PLAN_WORDS],
    height: u32,
    begin: u32,
    table: PoolWord,
    k: PoolWord,
    best: Span,
) -> Span
    requires plan_fits { PlanFits (plan_in plan.now) × (k.0 ≤ best.from.0) }
    requires height_bound { (height ≤ 2) × (table.0 < 2147483648) }
    ensures { Ahead k.0 best (EntriesIdle (plan_in plan.now) height begin table.0) result }
{
    let paint = plan::paint_in(plan);
    let size = table::size_of(height);
    let long = table::block_words(height);
    let first = entries_before(size, begin, paint.lo / long);
    let past = entries_before(size, begin, (paint.hi - 1) / long + 1);
    nearer(
        k,
        table.after(first as usize),
        table.after(past as usize),
        best,
    )
}

// Of the table of an edge, if it stays.
fn near_table(plan: &[u32; PLAN_WORDS], height: u32, edge: Edge, k: PoolWord, best: Span) -> Span
    requires plan_fits { PlanFits (plan_in plan.now) × (k.0 ≤ best.from.0) }
    requires height_lt_heights { (height < heights) × (edge.number < blocks height) }
    ensures { Ahead k.0 best (TableIdle (plan_in plan.now) height edge) result }
{
    if edge.last >= words::BIT_31 || edge.old >= words::BIT_31 {
        return best;
    }
    let begin = table::size_of(height) * edge.number;
    near_entries(plan, height, begin, PoolWord::from(edge.last), k, best)
}

// A new table of a height.
fn near_new(height: u32, edge: Edge, k: PoolWord, best: Span) -> Span
    requires { k.0 ≤ best.from.0 }
    ensures { Ahead k.0 best (NotNew height edge) result }
{
    if edge.last >= words::BIT_31 || edge.old < words::BIT_31 {
        return best;
    }
    let begin = PoolWord::from(edge.last);
    let end = begin.after(table::size_of(height) as usize);
    nearer(k, begin, end, best)
}

// The first row from `k` on, and before `best`, of the root and the middle tables that stay.
fn next_high(plan: &[u32; PLAN_WORDS], k: PoolWord, best: Span) -> Span
    requires { PlanFits (plan_in plan.now) × (k.0 ≤ best.from.0) }
    ensures { Ahead k.0 best (HighIdle (plan_in plan.now)) result }
{
    let blocks = plan::ends_in(plan, 1);
    let root = PoolWord::from(TABLE_WORDS * plan::domain_in(plan));
    let one = near_entries(plan, ROOT, 0, root, k, best);
    let two = near_table(plan, 1, blocks.first, k, one);
    near_table(plan, 1, blocks.last, k, two)
}

// The same of the leaves that stay.
fn next_low(plan: &[u32; PLAN_WORDS], k: PoolWord, best: Span) -> Span
    requires { PlanFits (plan_in plan.now) × (k.0 ≤ best.from.0) }
    ensures { Ahead k.0 best (LowIdle (plan_in plan.now)) result }
{
    let pages = plan::ends_in(plan, 0);
    let one = near_table(plan, 0, pages.first, k, best);
    near_table(plan, 0, pages.last, k, one)
}

// The same of the new tables.
fn next_new(plan: &[u32; PLAN_WORDS], k: PoolWord, best: Span) -> Span
    requires { k.0 ≤ best.from.0 }
    ensures { Ahead k.0 best (NewIdle (plan_in plan.now)) result }
{
    let blocks = plan::ends_in(plan, 1);
    let pages = plan::ends_in(plan, 0);
    let one = near_new(1, blocks.first, k, best);
    let two = near_new(1, blocks.last, k, one);
    let three = near_new(0, pages.first, k, two);
    near_new(0, pages.last, k, three)
}

// By the phase: in the first only words that lead are given up, and no word of a leaf leads; new tables are filled in
// the second. A match of three lines: with a closure for each phase they would stand apart.
fn next_in(plan: &[u32; PLAN_WORDS], c: u32, k: PoolWord, none: Span) -> Span
    requires { PlanFits (plan_in plan.now) × (k.0 ≤ none.from.0) }
    ensures { Ahead k.0 none (Idle (plan_in plan.now) c) result }
{
    match c {
        1 => next_high(plan, k, none),
        2 => next_new(plan, k, none),
        _ => next_low(plan, k, next_high(plan, k, none)),
    }
}

// The row after the cursor's that has something to do; past the last word, which `end` follows, the next phase begins.
fn next_row(plan: &[u32; PLAN_WORDS], at: Cursor, end: PoolWord) -> Cursor
    requires { PlanFits (plan_in plan.now) × (at.past.0 ≤ end.0) × (end.0 < 4294967296) × (at.phase < 4) }
    ensures { NextRow (plan_in plan.now) at end.0 result }
{
    let k = at.past;
    if k == end {
        return Cursor {
            phase: at.phase + 1,
            word: words::FIRST_WORD,
            past: words::FIRST_WORD,
        };
    }
    let none = Span {
        from: end,
        past: end,
    };
    let row = next_in(plan, at.phase, k, none);
    let past = if row.past.index() < end.index() {
        row.past
    } else {
        end
    };
    Cursor {
        phase: at.phase,
        word: row.from,
        past,
    }
}

// The store at the cursor's word, if the word changes in this phase.
fn next_here(pool: &[u32], shape: Shape, plan: &[u32; PLAN_WORDS], at: Cursor) -> Option<Store>
    requires { Looks shape (Change (plan_in plan.now)) at pool.now × (at.word.0 < at.past.0) }
    ensures { NextIn shape (Change (plan_in plan.now)) pool.now at.phase
        at.word.0 (at.word.0 + 1) result }
{
    let k = at.word;
    let x = pool[k.index()];
    // The phase is asked last: it looks for new tables at all four edges, and most words stay as they are.
    let value = final_word(plan, k, x);
    if value == x || phase_of(shape, plan, k, x) != at.phase {
        return None;
    }
    let on = Cursor {
        word: k.after(1),
        ..at
    };
    Some(Store { at: k, value, on })
}

// How many of the `count` words from `from` on have nothing to do in a phase, since they are eight rights: in the first
// phase all that do not lead.
fn plain_words(pool: &[u32], phase: u32, from: PoolWord, count: usize) -> usize
    requires { from.0 + count ≤ length pool.now }
    ensures { PlainWords pool.now phase from.0 count result }
{
    if phase == 1 {
        words::skip_rights(pool, from, count)
    } else {
        0
    }
}

// The next store in the cursor's row.
fn next_in_row(pool: &[u32], shape: Shape, plan: &[u32; PLAN_WORDS], at: Cursor) -> Option<Store>
    requires { Looks shape (Change (plan_in plan.now)) at pool.now }
    ensures { NextIn shape (Change (plan_in plan.now)) pool.now at.phase
        at.word.0 at.past.0 result }
{
    let count = at.past.index() - at.word.index();
    for i in plain_words(pool, at.phase, at.word, count)..count {
        let word = at.word.after(i);
        let next = next_here(pool, shape, plan, Cursor { word, ..at });
        if next.is_some() {
            return next;
        }
    }
    None
}

// The next store of a change: row by row, and phase by phase.
pub fn next_change(
    pool: &[u32],
    shape: Shape,
    plan: &[u32; PLAN_WORDS],
    from: Cursor,
) -> Option<Store>
    requires { Looks shape (Change (plan_in plan.now)) from pool.now }
    ensures { NextIs shape (Change (plan_in plan.now)) pool.now from.phase
        from.word.0 result }
{
    let end = PoolWord::from(pool.len() as u32);
    let mut at = from;
    // A `while`, since each row is found from the one before, and is of any length.
    while at.phase < 4 {
        let next = next_in_row(pool, shape, plan, at);
        if next.is_some() {
            return next;
        }
        at = next_row(plan, at, end);
    }
    None
}

// What a change goes by: its plan.
#[derive(Clone, Copy)]
pub struct ByPlan<'a> {
    pub plan: &'a [u32; PLAN_WORDS],
}

impl Guide for ByPlan<'_> {
    ghost work = { λ g. Change (plan_in g.plan.now) };

    ghost owners = { λ g. [] };

    fn next_store(&self, pool: &[u32], shape: Shape, from: Cursor) -> Option<Store> {
        next_change(pool, shape, self.plan, from)
    }
}
