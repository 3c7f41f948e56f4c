// The calls on a list of owned regions, and the change by a caller whom the list allows.
ghost use Rattle.std.specs.Prelude.{◌≡◌};
ghost use Rattle.owners.specs.Calls.{told, numbers, make_of, pass_of, give_of};
ghost use Rattle.goleuthan.specs.Calls.{ChangeByCall};

use crate::{calls, results};
use words::ByteAddr;

// Makes a region of words that lie in none.
#[unsafe(no_mangle)]
pub extern "C" fn gol_make_region(
    d: u32,
    regions: &mut [u32],
    caller: u32,
    owner: u32,
    start: u32,
    length: u32,
) -> u32
    ensures { told result regions.new ≡ numbers (make_of d regions.old caller owner start length) }
{
    let start = ByteAddr::from(start);
    results::number(owners::make_region(d, regions, caller, owner, start, length))
}

// Passes a region on.
#[unsafe(no_mangle)]
pub extern "C" fn gol_pass_region(
    d: u32,
    regions: &mut [u32],
    caller: u32,
    owner: u32,
    start: u32,
    length: u32,
) -> u32
    ensures { told result regions.new ≡ numbers (pass_of d regions.old caller owner start length) }
{
    let start = ByteAddr::from(start);
    results::number(owners::pass_region(d, regions, caller, owner, start, length))
}

// Gives a domain an export on a region.
#[unsafe(no_mangle)]
pub extern "C" fn gol_give_export(
    d: u32,
    regions: &mut [u32],
    caller: u32,
    receiver: u32,
    right: u32,
    start: u32,
    length: u32,
) -> u32
    ensures { told result regions.new ≡ numbers (give_of d regions.old caller receiver right start
        length) }
{
    let start = ByteAddr::from(start);
    results::number(owners::give_export(d, regions, caller, receiver, right, start, length))
}

// A change of rights by a caller.
#[unsafe(no_mangle)]
pub extern "C" fn gol_change_by(
    pool: &mut [u32],
    shape: &[u32],
    regions: &[u32],
    caller: u32,
    domain: u32,
    start: u32,
    length: u32,
    right: u32,
    allowance: u32,
    out: &mut [u32],
) -> u32
    ensures { ChangeByCall pool.old shape.now regions.now caller domain start
        length right allowance out.old result pool.new out.new }
{
    let start = ByteAddr::from(start);
    let answer = calls::change_by(
        pool, shape, regions, caller, domain, start, length, right, allowance,
    );
    results::give_ending(answer, out)
}
