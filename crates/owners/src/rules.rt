// Who may set a right: by a region, on a word, and on all words of a region at once.
ghost use Rattle.std.specs.Prelude.{◌≡◌, ◌<◌, IfSome, unwrap_or};
ghost use Rattle.owners.specs.Regions.{Counted, count_of};
ghost use Rattle.owners.specs.Rules.{exports, no_greater, may_in, may_at, allowed_of};
ghost use Rattle.owners.specs.Reach.{Reaches};

use crate::{COUNT, EXPORT_DOMAINS, Owned, Reach, SUPERVISOR, list};
use words::Region;

// The earliest region that holds a word, and how far that stays so. One pass over the regions: those before it shorten
// the stretch.
#[tactic(auto, using(crate::proofs::ReachLaws::reaching))]
fn reach_from(ws: &[u32], w: u32, end: u32) -> Reach
    requires counted { Counted ws.now }
    requires w_lt_end { w < end }
    ensures { Reaches ws.now w result }
{
    let mut until = end;
    for i in 0..ws[COUNT] as usize {
        let r = list::bounds_at(ws, i);
        if w < r.lo {
            until = until.min(r.lo);
        } else if w < r.hi {
            return Reach {
                place: Some(i),
                until: until.min(r.hi),
            };
        }
    }
    Reach { place: None, until }
}

fn has_export(r: Owned, domain: u32) -> bool
    ensures { result ≡ exports r domain }
{
    domain < EXPORT_DOMAINS && (r.given >> domain) % 2 == 1
}

fn no_greater(right: u32, export: u32) -> bool
    ensures { result ≡ no_greater right export }
{
    right == export || (right < 2 && right < export)
}

fn may_in(r: Owned, caller: u32, domain: u32, right: u32) -> bool
    ensures { result ≡ may_in r caller domain right }
{
    caller == r.owner
        || (has_export(r, caller)
            && caller != domain
            && no_greater(right, words::right_at(r.rights, caller)))
}

// Whether a word of the region of this number allows it, or one of none.
fn may_at(ws: &[u32], place: Option<usize>, caller: u32, domain: u32, right: u32) -> bool
    requires counted { Counted ws.now }
    requires held { IfSome place (λ k. k < count_of ws.now) }
    ensures { result ≡ may_at ws.now (unwrap_or place (count_of ws.now)) caller domain right }
{
    match place {
        Some(k) => may_in(list::region_at(ws, k), caller, domain, right),
        None => caller == SUPERVISOR,
    }
}

// Whether every word of the region allows the change. It goes from boundary to boundary: a verdict holds as far as the
// word's region stays the same.
pub(crate) fn allowed(ws: &[u32], caller: u32, domain: u32, right: u32, region: Region) -> bool
    requires { Counted ws.now }
    ensures { result ≡ allowed_of ws.now caller domain right region }
{
    let mut w = region.lo;
    // By unequal strides, each as long as a verdict holds.
    while w < region.hi {
        let r = reach_from(ws, w, region.hi);
        if !may_at(ws, r.place, caller, domain, right) {
            return false;
        }
        w = r.until;
    }
    true
}
