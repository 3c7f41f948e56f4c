// The regions in their lent words: one read, one stored, and the search for the first that passes a test. The words are
// a slice with a clause, `Counted`, and no type with it: a caller may lend any words, and `ask` tells.
ghost use Rattle.std.specs.Prelude.{◌≡◌, ◌+◌, ◌*◌, ◌≤◌, Bool, length};
ghost use Rattle.owners.specs.declared.Owned.{Owned as AnOwned};
ghost use Rattle.owners.specs.Regions.{Counted, region_at};
ghost use Rattle.owners.specs.Calls.{put_at};
ghost use Rattle.owners.specs.Reach.{bounds_of, found, found_own};

use crate::{COUNT, Owned};
use words::Region;

pub(crate) fn region_at(ws: &[u32], i: usize) -> Owned
    requires { 5 * i + 5 ≤ length ws.now }
    ensures { result ≡ region_at ws.now i }
{
    let at = 5 * i;
    Owned {
        owner: ws[at],
        lo: ws[at + 1],
        hi: ws[at + 2],
        given: ws[at + 3],
        rights: ws[at + 4],
    }
}

// The words of a region alone: what a search by words reads of it.
pub(crate) fn bounds_at(ws: &[u32], i: usize) -> Region
    requires { 5 * i + 5 ≤ length ws.now }
    ensures { result ≡ bounds_of (region_at ws.now i) }
{
    let at = 5 * i;
    Region {
        lo: ws[at + 1],
        hi: ws[at + 2],
    }
}

pub(crate) fn put_region(ws: &mut [u32], i: usize, r: Owned)
    requires { 5 * i + 5 ≤ length ws.old }
    ensures { ws.new ≡ put_at ws.old i r }
{
    let at = 5 * i;
    ws[at] = r.owner;
    ws[at + 1] = r.lo;
    ws[at + 2] = r.hi;
    ws[at + 3] = r.given;
    ws[at + 4] = r.rights;
}

// The number of the first region held that passes the test. The earlier of two counts because the search goes up. A
// `find` over the numbers is no plainer: what its closure asks for `region_at` would stand in clauses of its own.
#[tactic(auto, using(crate::proofs::PlaceLaws::searching))]
pub(crate) fn place_of<F: Fn(Owned) -> bool>(ws: &[u32], passes: F) -> Option<usize>
    ghost test: { AnOwned → Bool }
    requires counted { Counted ws.now }
    requires callable { F.IsAlwaysCallable passes }
    requires tells { (r : AnOwned) (b : Bool) → F.post passes r b → b ≡ test r }
    ensures { result ≡ found ws.now test }
{
    for i in 0..ws[COUNT] as usize {
        if passes(region_at(ws, i)) {
            return Some(i);
        }
    }
    None
}

// The number of the region of exactly these words, where the caller owns it.
pub(crate) fn own_place(ws: &[u32], caller: u32, region: Region) -> Option<usize>
    requires { Counted ws.now }
    ensures { result ≡ found_own ws.now caller region }
{
    let k = place_of(ws, |r| r.lo == region.lo && r.hi == region.hi)?;
    if region_at(ws, k).owner == caller {
        Some(k)
    } else {
        None
    }
}
