// The calls on a list: what all of them refuse alike, and what each does once it is in order.
ghost use Rattle.std.specs.Prelude.{◌≡◌, ◌<◌};
ghost use Rattle.owners.specs.Regions.{Counted};
ghost use Rattle.owners.specs.Rules.{export_domains};
ghost use Rattle.owners.specs.Calls.{outcome, asked_of, in_range, fresh_region, made, passed, gave};

use crate::{COUNT, LIST_WORDS, MAX_REGIONS, Owned, SUPERVISOR, exports, list};
use refusals::Refusal;
use words::{ByteAddr, Region};

pub(crate) fn in_range(domains: u32) -> bool
    ensures { result ≡ in_range domains }
{
    (1..=table::MAX_DOMAINS).contains(&domains)
}

// The region that a call asks for, or what it refuses up to 5, in the paper's order. The list is lent as a slice, since
// a list of another length is refused, here.
#[tactic(auto, unfolding(crate::specs::Calls::asked_of))]
pub(crate) fn ask(
    fits: bool,
    ws: &[u32],
    domains: u32,
    caller: u32,
    other: u32,
    right: u32,
    start: ByteAddr,
    length: u32,
) -> Result<Region, Refusal>
    ensures { result ≡ asked_of fits ws.now domains caller other right start.0 length }
{
    if ws.len() != LIST_WORDS {
        return Err(Refusal::WrongLength);
    }
    if !fits {
        return Err(Refusal::NoShape);
    }
    if ws[COUNT] > MAX_REGIONS {
        return Err(Refusal::BadState);
    }
    if caller >= domains || other >= domains {
        return Err(Refusal::NoDomain);
    }
    if right > 3 {
        return Err(Refusal::NoRight);
    }
    words::round_region(start, length)
}

fn fresh_region(owner: u32, region: Region) -> Owned
    ensures { result ≡ fresh_region owner region }
{
    Owned {
        owner,
        lo: region.lo,
        hi: region.hi,
        given: 0,
        rights: 0,
    }
}

// A region made, of the words asked for.
#[tactic(auto, using(crate::proofs::PlaceLaws::searched), unfolding(crate::specs::Calls::made))]
pub(crate) fn make(ws: &mut [u32], caller: u32, owner: u32, region: Region) -> Result<(), Refusal>
    requires { Counted ws.old }
    ensures { outcome result ws.new ≡ made ws.old caller owner region }
{
    let meets = |r: Owned| region.lo.max(r.lo) < region.hi.min(r.hi);
    if caller != SUPERVISOR || list::place_of(ws, meets).is_some() {
        return Err(Refusal::NotAllowed);
    }
    let count = ws[COUNT];
    if count == MAX_REGIONS {
        return Err(Refusal::RegionsFull);
    }
    list::put_region(ws, count as usize, fresh_region(owner, region));
    ws[COUNT] = count + 1;
    Ok(())
}

// The region of the words asked for passed on.
#[tactic(auto, using(crate::proofs::PlaceLaws::searched), unfolding(crate::specs::Calls::passed))]
pub(crate) fn pass(ws: &mut [u32], caller: u32, owner: u32, region: Region) -> Result<(), Refusal>
    requires { Counted ws.old }
    ensures { outcome result ws.new ≡ passed ws.old caller owner region }
{
    let k = list::own_place(ws, caller, region).ok_or(Refusal::NotAllowed)?;
    list::put_region(ws, k, fresh_region(owner, region));
    Ok(())
}

// An export given of the region of the words asked for.
#[tactic(auto, using(crate::proofs::PlaceLaws::searched), unfolding(crate::specs::Calls::gave))]
pub(crate) fn give(
    ws: &mut [u32],
    caller: u32,
    receiver: u32,
    right: u32,
    region: Region,
) -> Result<(), Refusal>
    requires counted { Counted ws.old }
    requires receiver_lt_export_domains { (receiver < export_domains) × (right < 4) }
    ensures { outcome result ws.new ≡ gave ws.old caller receiver right region }
{
    let k = list::own_place(ws, caller, region).ok_or(Refusal::NotAllowed)?;
    if receiver == caller {
        return Err(Refusal::NotAllowed);
    }
    let r = exports::with_export(list::region_at(ws, k), receiver, right);
    list::put_region(ws, k, r);
    Ok(())
}
