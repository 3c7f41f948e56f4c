// How a plan lies in sixteen lent words: a plan by value would be copied into every function that asks it, and a
// supervisor's stack is short. What a plan fits (`PlanFits`) stands in clauses, since its words may say any number.
ghost use Rattle.std.specs.Prelude.{◌≡◌, ◌+◌, ◌<◌, ◌≤◌, get_or};
ghost use Rattle.plan.specs.Plan.{edge_word, edge_in, paint_in, plan_in, ends_of, put_edge};

use crate::{Edge, Ends};
use targets::Paint;

// The domain, the region and its right, then the edges.
pub const PLAN_WORDS: usize = 16;

// Where the words of the edges begin.
const FIRST_BLOCK: usize = 4;

const LAST_BLOCK: usize = 7;

const FIRST_PAGE: usize = 10;

const LAST_PAGE: usize = 13;

// The domain that is changed.
pub fn domain_in(plan: &[u32; PLAN_WORDS]) -> u32
    ensures { result ≡ get_or plan.now 0 0 }
{
    plan[0]
}

// The region that is painted, and with which right.
pub fn paint_in(plan: &[u32; PLAN_WORDS]) -> Paint
    ensures { result ≡ paint_in plan.now }
{
    Paint {
        lo: plan[1],
        hi: plan[2],
        right: plan[3],
    }
}

// The edge whose words begin at `i`.
pub fn edge_in(plan: &[u32; PLAN_WORDS], i: usize) -> Edge
    requires { i < 14 }
    ensures { result ≡ edge_in plan.now i }
{
    Edge {
        number: plan[i],
        old: plan[i + 1],
        last: plan[i + 2],
    }
}

// Where the words of the first or the last edge of a height begin.
pub fn edge_index(height: u32, first: bool) -> usize
    ensures { result ≡ edge_word height first }
{
    match (height, first) {
        (0, true) => FIRST_PAGE,
        (0, false) => LAST_PAGE,
        (_, true) => FIRST_BLOCK,
        (_, false) => LAST_BLOCK,
    }
}

// The edges of a height.
pub fn ends_in(plan: &[u32; PLAN_WORDS], height: u32) -> Ends
    ensures { result ≡ ends_of (plan_in plan.now) height }
{
    Ends {
        first: edge_in(plan, edge_index(height, true)),
        last: edge_in(plan, edge_index(height, false)),
    }
}

// An edge is stored in the words from `i` on.
pub fn put_edge(plan: &mut [u32; PLAN_WORDS], i: usize, edge: Edge)
    requires { i < 14 }
    ensures { plan.new ≡ put_edge plan.old i edge }
{
    plan[i] = edge.number;
    plan[i + 1] = edge.old;
    plan[i + 2] = edge.last;
}
