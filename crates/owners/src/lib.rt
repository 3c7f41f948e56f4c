// Who may hand out rights: owned regions in lent words, which are never copied, and changes by callers whom they allow.
#![tactic(auto)]

ghost use Rattle.std.specs.Prelude.{◌≡◌};
ghost use Rattle.owners.specs.Calls.{outcome, asked_of, make_of, pass_of, give_of};
ghost use Rattle.owners.specs.Changes.{ChangesBy};
ghost use Rattle.owners.specs.Reach.{LeaveIs};

use change::Ending;
use refusals::Refusal;
use table::Shape;
use words::ByteAddr;

mod calls; // calls.rt: what the calls do once they are in order
mod exports; // exports.rt: an export given inside a region's words
mod list; // list.rt: the regions in their words, and the search for the first
mod rules; // rules.rt: who may set a right, on a word and on a region

// A list has room for this many regions.
pub const MAX_REGIONS: u32 = 64;

// The words of a list: 64 regions of five, then the count.
pub const LIST_WORDS: usize = 321;

// Where the count stands.
const COUNT: usize = 320;

// The domain that words in no region belong to, and that makes regions.
const SUPERVISOR: u32 = 0;

// An export may go to the domains below this number.
const EXPORT_DOMAINS: u32 = 16;

// A region as its five words say it: the memory words `lo ≤ w < hi`. Bit k of `given` tells whether domain k has an
// export, of the right in bits 2k+1 and 2k of `rights`.
#[derive(Clone, Copy)]
pub struct Owned {
    pub owner: u32,
    pub lo: u32,
    pub hi: u32,
    pub given: u32,
    pub rights: u32,
}

// The number of the region that a memory word lies in, if it lies in one, and the first word for which that is not
// known.
#[derive(Clone, Copy)]
pub struct Reach {
    pub place: Option<usize>,
    pub until: u32,
}

// A region more, of words that lie in none: domain 0 makes it.
#[tactic(auto, using(crate::proofs::CallLaws::asking))]
pub fn make_region(
    domains: u32,
    regions: &mut [u32],
    caller: u32,
    owner: u32,
    start: ByteAddr,
    length: u32,
) -> Result<(), Refusal>
    ensures { outcome result regions.new ≡ make_of domains regions.old caller owner start.0
        length }
{
    let fits = calls::in_range(domains);
    let region = calls::ask(fits, regions, domains, caller, owner, 0, start, length)?;
    calls::make(regions, caller, owner, region)
}

// A whole region passed on by its owner, which ends its exports.
#[tactic(auto, using(crate::proofs::CallLaws::asking))]
pub fn pass_region(
    domains: u32,
    regions: &mut [u32],
    caller: u32,
    owner: u32,
    start: ByteAddr,
    length: u32,
) -> Result<(), Refusal>
    ensures { outcome result regions.new ≡ pass_of domains regions.old caller owner start.0
        length }
{
    let fits = calls::in_range(domains);
    let region = calls::ask(fits, regions, domains, caller, owner, 0, start, length)?;
    calls::pass(regions, caller, owner, region)
}

// An export of a right on a whole region, given by its owner to another domain.
#[tactic(auto, using(crate::proofs::CallLaws::asking))]
pub fn give_export(
    domains: u32,
    regions: &mut [u32],
    caller: u32,
    receiver: u32,
    right: u32,
    start: ByteAddr,
    length: u32,
) -> Result<(), Refusal>
    ensures { outcome result regions.new ≡ give_of domains regions.old caller receiver right
        start.0 length }
{
    let fits = calls::in_range(domains);
    let region = calls::ask(
        fits, regions, domains, caller, receiver, right, start, length,
    )?;
    calls::give(regions, caller, receiver, right, region)
}

// Whether a caller may ask for a change: its region is in order and every word that it covers allows it. What this
// needs is given back before the change begins, which needs most of the stack.
fn leave_of(
    fits: bool,
    regions: &[u32],
    domains: u32,
    caller: u32,
    domain: u32,
    right: u32,
    start: ByteAddr,
    length: u32,
) -> Result<(), Refusal>
    ensures { LeaveIs regions.now caller domain right
        (asked_of fits regions.now domains caller domain right start.0 length) result }
{
    let region = calls::ask(fits, regions, domains, caller, domain, right, start, length)?;
    if rules::allowed(regions, caller, domain, right, region) {
        Ok(())
    } else {
        Err(Refusal::NotAllowed)
    }
}

// A change by a caller: refused where a covered word does not allow it, else the change itself.
pub fn change_by(
    pool: &mut [u32],
    shape: Shape,
    regions: &[u32],
    caller: u32,
    domain: u32,
    start: ByteAddr,
    length: u32,
    right: u32,
    allowance: u32,
) -> Result<Ending, Refusal>
    ensures { ChangesBy pool.old shape regions.now caller domain start.0 length right
        allowance result pool.new }
{
    let fits = table::shape_fits(shape, pool.len());
    leave_of(
        fits,
        regions,
        shape.domains,
        caller,
        domain,
        right,
        start,
        length,
    )?;
    change::change(pool, shape, domain, start, length, right, allowance)
}
