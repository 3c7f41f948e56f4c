// The calls on slices and numbers, each with its answer or its refusal: first of lent words that are not as many as their
// layout has, then of what they say.
ghost use Rattle.std.specs.Prelude.{◌≡◌, List, ℕ};
ghost use Rattle.table.specs.Fresh.{made_number};
ghost use Rattle.goleuthan.specs.Out.{out_with, number_of, words_of};
ghost use Rattle.goleuthan.specs.Calls.{FreshCall, LookupCall, ListCall, ChangeCall, ChangeByCall, TidyCall};
ghost use Rattle.goleuthan.specs.Calls.{answer_number, answer_results};
ghost use Rattle.goleuthan.specs.StateCalls.{back, state_after, check_call, flush_all_call, flush_domain_call};
ghost use Rattle.goleuthan.specs.StateCalls.{flush_region_call, set_call, remove_call, step_call};

use crate::shapes::read_shape;
use change::Ending;
use gates::{Gate, Stepped};
use lookaside::Verdict;
use refusals::Refusal;
use words::ByteAddr;

pub fn fresh(pool: &mut [u32], shape: &[u32]) -> Result<(), Refusal>
    ensures { FreshCall pool.old shape.now (made_number result) pool.new }
{
    table::fresh(pool, read_shape(shape)?)
}

pub fn look_up(
    pool: &[u32],
    shape: &[u32],
    domain: u32,
    address: ByteAddr,
) -> Result<[u32; 5], Refusal>
    ensures { (out : List ℕ) → LookupCall pool.now shape.now domain address.0 out (number_of result)
        (out_with (words_of 5 result) out) }
{
    let by = table::lookup(pool, read_shape(shape)?, domain, address)?;
    Ok([
        by.right,
        by.entry,
        by.loads,
        u32::from(by.first),
        u32::from(by.last),
    ])
}

pub fn change(
    pool: &mut [u32],
    shape: &[u32],
    domain: u32,
    start: ByteAddr,
    length: u32,
    right: u32,
    allowance: u32,
) -> Result<Ending, Refusal>
    ensures { (out : List ℕ) → ChangeCall pool.old shape.now domain start.0 length right allowance out
        (answer_number result) pool.new (out_with (answer_results result) out) }
{
    let shape = read_shape(shape)?;
    change::change(pool, shape, domain, start, length, right, allowance)
}

pub fn change_by(
    pool: &mut [u32],
    shape: &[u32],
    regions: &[u32],
    caller: u32,
    domain: u32,
    start: ByteAddr,
    length: u32,
    right: u32,
    allowance: u32,
) -> Result<Ending, Refusal>
    ensures { (out : List ℕ) → ChangeByCall pool.old shape.now regions.now caller domain start.0 length
        right allowance out (answer_number result) pool.new (out_with (answer_results result) out) }
{
    let shape = read_shape(shape)?;
    owners::change_by(
        pool, shape, regions, caller, domain, start, length, right, allowance,
    )
}

pub fn tidy(pool: &mut [u32], shape: &[u32], allowance: u32) -> Result<Ending, Refusal>
    ensures { (out : List ℕ) → TidyCall pool.old shape.now allowance out (answer_number result) pool.new
        (out_with (answer_results result) out) }
{
    change::tidy(pool, read_shape(shape)?, allowance)
}

// The count in one word: the greatest word where it is greater.
pub fn list(pool: &[u32], shape: &[u32], from: u32, runs: &mut [u32]) -> Result<[u32; 1], Refusal>
    ensures { (out : List ℕ) → ListCall pool.now shape.now from runs.old out (number_of result) runs.new
        (out_with (words_of 1 result) out) }
{
    let count = listing::list_runs(pool, read_shape(shape)?, from, runs)?;
    Ok([u32::try_from(count).unwrap_or(u32::MAX)])
}

#[tactic(auto, unfolding(crate::specs::StateCalls::check_call))]
pub fn check(
    pool: &[u32],
    shape: &[u32],
    buffer: &mut [u32],
    domain: u32,
    kind: u32,
    size: u32,
    address: ByteAddr,
) -> Result<[u32; 2], Refusal>
    ensures { (out : List ℕ) → back (number_of result) buffer.new (out_with (words_of 2 result) out)
        ≡ check_call pool.now shape.now buffer.old domain kind size address.0 out }
{
    let shape = read_shape(shape)?;
    let buffer = buffer.as_mut_array().ok_or(Refusal::WrongLength)?;
    match lookaside::check(pool, shape, buffer, domain, kind, size, address)? {
        Verdict::Pass(loads) => Ok([1, loads]),
        Verdict::Deny(loads) => Ok([0, loads]),
    }
}

#[tactic(auto, unfolding(crate::specs::StateCalls::flush_call))]
pub fn flush_all(buffer: &mut [u32]) -> Result<(), Refusal>
    ensures { state_after (made_number result) buffer.new ≡ flush_all_call buffer.old }
{
    lookaside::flush_all(buffer.as_mut_array().ok_or(Refusal::WrongLength)?)
}

#[tactic(auto, unfolding(crate::specs::StateCalls::flush_call))]
pub fn flush_domain(buffer: &mut [u32], domain: u32) -> Result<(), Refusal>
    ensures { state_after (made_number result) buffer.new ≡ flush_domain_call buffer.old domain }
{
    let buffer = buffer.as_mut_array().ok_or(Refusal::WrongLength)?;
    lookaside::flush_domain(buffer, domain)
}

#[tactic(auto, unfolding(crate::specs::StateCalls::flush_call))]
pub fn flush_region(
    buffer: &mut [u32],
    domain: u32,
    start: ByteAddr,
    length: u32,
) -> Result<(), Refusal>
    ensures { state_after (made_number result) buffer.new ≡ flush_region_call buffer.old domain start.0 length }
{
    let buffer = buffer.as_mut_array().ok_or(Refusal::WrongLength)?;
    lookaside::flush_region(buffer, domain, start, length)
}

#[tactic(auto, unfolding(crate::specs::StateCalls::gates_call))]
pub fn set_gate(
    d: u32,
    gates: &mut [u32],
    domain: u32,
    address: ByteAddr,
    gate: Gate,
) -> Result<(), Refusal>
    ensures { state_after (made_number result) gates.new ≡ set_call d gates.old domain address.0 gate }
{
    let gates = gates.as_mut_array().ok_or(Refusal::WrongLength)?;
    gates::set_gate(d, gates, domain, address, gate)
}

#[tactic(auto, unfolding(crate::specs::StateCalls::gates_call))]
pub fn remove_gate(d: u32, gates: &mut [u32], domain: u32, address: ByteAddr) -> Result<(), Refusal>
    ensures { state_after (made_number result) gates.new ≡ remove_call d gates.old domain address.0 }
{
    let gates = gates.as_mut_array().ok_or(Refusal::WrongLength)?;
    gates::remove_gate(d, gates, domain, address)
}

#[tactic(auto, unfolding(crate::specs::StateCalls::step_call))]
pub fn step(
    pool: &[u32],
    shape: &[u32],
    gates: &[u32],
    stack: &mut [u32],
    address: ByteAddr,
    target: ByteAddr,
) -> Result<[u32; 1], Refusal>
    ensures { (out : List ℕ) → back (number_of result) stack.new (out_with (words_of 1 result) out)
        ≡ step_call pool.now shape.now gates.now stack.old address.0 target.0 out }
{
    let shape = read_shape(shape)?;
    let gates = gates.as_array().ok_or(Refusal::WrongLength)?;
    let stack = stack.as_mut_array().ok_or(Refusal::WrongLength)?;
    match gates::fetch_step(pool, shape, gates, stack, address, target)? {
        Stepped::Pass => Ok([1]),
        Stepped::Deny => Ok([0]),
    }
}
