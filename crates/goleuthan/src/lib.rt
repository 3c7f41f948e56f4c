// The C face: the library's calls on numbers and slices, under plain names. A slice is a pointer and a length in
// words. Results go into the lent words `out`, as many as fit; include/goleuthan.h says what a caller owes and gets.
#![tactic(auto)]

mod calls; // calls.rt: each call with its answer or its refusal
mod regions; // regions.rt: the calls on owned regions, and the change by a caller
mod results; // results.rt: the number of an answer, and its result words
mod shapes; // shapes.rt: the lent shape

ghost use Rattle.std.specs.Prelude.{◌≡◌};
ghost use Rattle.goleuthan.specs.StateCalls.{back, state_after, check_call, flush_all_call, flush_domain_call};
ghost use Rattle.goleuthan.specs.StateCalls.{flush_region_call, set_switch_call, set_return_call, remove_call};
ghost use Rattle.goleuthan.specs.StateCalls.{step_call};
ghost use Rattle.goleuthan.specs.Calls.{FreshCall, LookupCall, ChangeCall, TidyCall, ListCall};

use gates::Gate;
use words::ByteAddr;

// Makes a pool fresh.
#[unsafe(no_mangle)]
pub extern "C" fn gol_fresh(pool: &mut [u32], shape: &[u32]) -> u32
    ensures { FreshCall pool.old shape.now result pool.new }
{
    results::number(calls::fresh(pool, shape))
}

// The right of an address, the deciding entry, the loads made, and the first and the last byte that the right reaches
// to inside the entry's block.
#[unsafe(no_mangle)]
pub extern "C" fn gol_lookup(
    pool: &[u32],
    shape: &[u32],
    domain: u32,
    address: u32,
    out: &mut [u32],
) -> u32
    ensures { LookupCall pool.now shape.now domain address out.old result
        out.new }
{
    let address = ByteAddr::from(address);
    results::give(calls::look_up(pool, shape, domain, address), out)
}

// A change of rights.
#[unsafe(no_mangle)]
pub extern "C" fn gol_change(
    pool: &mut [u32],
    shape: &[u32],
    domain: u32,
    start: u32,
    length: u32,
    right: u32,
    allowance: u32,
    out: &mut [u32],
) -> u32
    ensures { ChangeCall pool.old shape.now domain start length right allowance
        out.old result pool.new out.new }
{
    let start = ByteAddr::from(start);
    let answer = calls::change(pool, shape, domain, start, length, right, allowance);
    results::give_ending(answer, out)
}

// A tidying.
#[unsafe(no_mangle)]
pub extern "C" fn gol_tidy(pool: &mut [u32], shape: &[u32], allowance: u32, out: &mut [u32]) -> u32
    ensures { TidyCall pool.old shape.now allowance out.old result pool.new
        out.new }
{
    results::give_ending(calls::tidy(pool, shape, allowance), out)
}

// The runs of a pool from number `from` on, four words each, as many as fit into `runs`.
#[unsafe(no_mangle)]
pub extern "C" fn gol_list(
    pool: &[u32],
    shape: &[u32],
    from: u32,
    runs: &mut [u32],
    out: &mut [u32],
) -> u32
    ensures { ListCall pool.now shape.now from runs.old out.old result
        runs.new out.new }
{
    results::give(calls::list(pool, shape, from, runs), out)
}

// The check of an access, through a lookaside buffer. A hit writes nothing to the buffer, and a miss one slot and the
// pointer.
#[unsafe(no_mangle)]
pub extern "C" fn gol_check(
    pool: &[u32],
    shape: &[u32],
    buffer: &mut [u32],
    domain: u32,
    kind: u32,
    size: u32,
    address: u32,
    out: &mut [u32],
) -> u32
    ensures { back result buffer.new out.new ≡ check_call pool.now shape.now
        buffer.old domain kind size address out.old }
{
    let address = ByteAddr::from(address);
    let answer = calls::check(pool, shape, buffer, domain, kind, size, address);
    results::give(answer, out)
}

// Empties every slot of a buffer.
#[unsafe(no_mangle)]
pub extern "C" fn gol_flush_all(buffer: &mut [u32]) -> u32
    ensures { state_after result buffer.new ≡ flush_all_call buffer.old }
{
    results::number(calls::flush_all(buffer))
}

// Empties the slots of a domain.
#[unsafe(no_mangle)]
pub extern "C" fn gol_flush_domain(buffer: &mut [u32], domain: u32) -> u32
    ensures { state_after result buffer.new ≡ flush_domain_call buffer.old domain }
{
    results::number(calls::flush_domain(buffer, domain))
}

// Empties the slots of a domain whose block meets a region.
#[unsafe(no_mangle)]
pub extern "C" fn gol_flush_region(buffer: &mut [u32], domain: u32, start: u32, length: u32) -> u32
    ensures { state_after result buffer.new ≡ flush_region_call buffer.old domain start length }
{
    let start = ByteAddr::from(start);
    results::number(calls::flush_region(buffer, domain, start, length))
}

// Sets a switch gate.
#[unsafe(no_mangle)]
pub extern "C" fn gol_set_switch_gate(
    d: u32,
    gates: &mut [u32],
    domain: u32,
    address: u32,
    destination: u32,
) -> u32
    ensures { state_after result gates.new ≡ set_switch_call d gates.old domain address
        destination }
{
    let gate = Gate::Switch(destination);
    let address = ByteAddr::from(address);
    results::number(calls::set_gate(d, gates, domain, address, gate))
}

// Sets a return gate.
#[unsafe(no_mangle)]
pub extern "C" fn gol_set_return_gate(d: u32, gates: &mut [u32], domain: u32, address: u32) -> u32
    ensures { state_after result gates.new ≡ set_return_call d gates.old domain address }
{
    let address = ByteAddr::from(address);
    results::number(calls::set_gate(d, gates, domain, address, Gate::Return))
}

// Removes a gate.
#[unsafe(no_mangle)]
pub extern "C" fn gol_remove_gate(d: u32, gates: &mut [u32], domain: u32, address: u32) -> u32
    ensures { state_after result gates.new ≡ remove_call d gates.old domain address }
{
    let address = ByteAddr::from(address);
    results::number(calls::remove_gate(d, gates, domain, address))
}

// One fetch step, by the gates and the call stack.
#[unsafe(no_mangle)]
pub extern "C" fn gol_step(
    pool: &[u32],
    shape: &[u32],
    gates: &[u32],
    stack: &mut [u32],
    address: u32,
    target: u32,
    out: &mut [u32],
) -> u32
    ensures { back result stack.new out.new ≡ step_call pool.now shape.now
        gates.now stack.old address target out.old }
{
    let address = ByteAddr::from(address);
    let target = ByteAddr::from(target);
    results::give(calls::step(pool, shape, gates, stack, address, target), out)
}
