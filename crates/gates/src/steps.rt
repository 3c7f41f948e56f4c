// The parts of a step: what it refuses before it looks at the gate, the fetch check, and the three ways to go on.
ghost use Rattle.std.specs.Prelude.{◌≡◌, ◌+◌, ◌<◌, ◌≤◌, set, OnOk};
ghost use Rattle.std.specs.List.{list_all};
ghost use Rattle.gates.specs.Gates.{held};
ghost use Rattle.gates.specs.Steps.{in_use, frame_below, gate_below, domains_known, step_refusal, fetch_of};
ghost use Rattle.gates.specs.Steps.{plain_step, switch_step, given_back, return_step};
ghost use Rattle.gates.specs.Layout.{gates_of, stack_of, stack_words, SteppedAs};

use crate::places::leads_below;
use crate::{
    COUNT, CURRENT, DEPTH, Frame, GATES_WORDS, GateAt, MAX_DEPTH, MAX_GATES, STACK_WORDS, Stepped,
    layout,
};
use refusals::Refusal;
use table::Shape;
use words::ByteAddr;

fn gate_below(g: GateAt, domains: u32) -> bool
    ensures { result ≡ gate_below domains g }
{
    g.domain < domains && leads_below(g.gate, domains)
}

// Gates and frames are asked each by a line of their own: one for both would read them by a trait.
fn gates_below(gates: &[u32; GATES_WORDS], domains: u32) -> bool
    requires { (gates_of gates.now).count ≤ 64 }
    ensures { result ≡ list_all (gate_below domains) (held (gates_of gates.now)) }
{
    (0..gates[COUNT] as usize).all(|i| gate_below(layout::gate_at(gates, i), domains))
}

fn frames_below(stack: &[u32; STACK_WORDS], domains: u32) -> bool
    requires { (stack_of stack.now).depth ≤ 16 }
    ensures { result ≡ list_all (frame_below domains) (in_use (stack_of stack.now)) }
{
    (0..stack[DEPTH] as usize).all(|i| layout::frame_at(stack, i).domain < domains)
}

// Whether every domain that a step could enter is below D.
#[tactic(auto, unfolding(crate::specs::Steps::domains_known))]
fn domains_known(gates: &[u32; GATES_WORDS], stack: &[u32; STACK_WORDS], domains: u32) -> bool
    requires { ((gates_of gates.now).count ≤ 64) × ((stack_of stack.now).depth ≤ 16) }
    ensures { result ≡ domains_known (gates_of gates.now) (stack_of stack.now) domains }
{
    stack[CURRENT] < domains && frames_below(stack, domains) && gates_below(gates, domains)
}

// What a step refuses before it looks at the gate.
#[tactic(auto, unfolding(crate::specs::Steps::step_refusal))]
pub(crate) fn step_refusal(
    long: usize,
    shape: Shape,
    gates: &[u32; GATES_WORDS],
    stack: &[u32; STACK_WORDS],
    address: ByteAddr,
    target: ByteAddr,
) -> Result<(), Refusal>
    ensures answer { result ≡ step_refusal long shape (gates_of gates.now) (stack_of stack.now)
        address.0 target.0 }
    ensures gates { OnOk result ((gates_of gates.now).count ≤ 64) }
    ensures stack { OnOk result ((stack_of stack.now).depth ≤ 16) }
{
    if !table::shape_fits(shape, long) {
        return Err(Refusal::NoShape);
    }
    if gates[COUNT] > MAX_GATES || stack[DEPTH] > MAX_DEPTH {
        return Err(Refusal::BadState);
    }
    if !domains_known(gates, stack, shape.domains) {
        return Err(Refusal::NoDomain);
    }
    if u32::from(address) % 4 != 0 || u32::from(target) % 4 != 0 {
        return Err(Refusal::NotAligned);
    }
    Ok(())
}

// The fetch of the word at an address, checked in a domain by a walk.
#[tactic(auto, unfolding(crate::specs::Steps::fetch_of))]
fn fetch(pool: &[u32], shape: Shape, domain: u32, address: ByteAddr) -> Result<Stepped, Refusal>
    ensures { result ≡ fetch_of pool.now shape address.0 domain }
{
    let by = table::decide(pool, shape, domain, address)?;
    if table::passes(table::FETCH, by.right) {
        Ok(Stepped::Pass)
    } else {
        Ok(Stepped::Deny)
    }
}

// A frame goes on the stack, and the destination becomes current.
fn push(stack: &mut [u32; STACK_WORDS], f: Frame, to: u32)
    requires { (stack_of stack.old).depth < 16 }
    ensures { stack.new ≡ stack_words (record {
      frames = set (stack_of stack.old).frames (stack_of stack.old).depth f;
      depth = (stack_of stack.old).depth + 1;
      current = to;
    }) }
{
    let depth = stack[DEPTH];
    layout::put_frame(stack, depth as usize, f);
    stack[DEPTH] = depth + 1;
    stack[CURRENT] = to;
}

pub(crate) fn plain_step(
    pool: &[u32],
    shape: Shape,
    stack: &[u32; STACK_WORDS],
    address: ByteAddr,
) -> Result<Stepped, Refusal>
    ensures { result ≡ (plain_step (fetch_of pool.now shape address.0) (stack_of stack.now)
        ).answer }
{
    fetch(pool, shape, stack[CURRENT], address)
}

#[tactic(auto, unfolding(crate::specs::Steps::switch_step))]
pub(crate) fn switch_step(
    pool: &[u32],
    shape: Shape,
    stack: &mut [u32; STACK_WORDS],
    to: u32,
    address: ByteAddr,
    target: ByteAddr,
) -> Result<Stepped, Refusal>
    ensures { SteppedAs (switch_step (fetch_of pool.now shape address.0)
        (stack_of stack.old) to target) result stack.new }
{
    if stack[DEPTH] >= MAX_DEPTH {
        return Err(Refusal::StackFull);
    }
    match fetch(pool, shape, to, address)? {
        Stepped::Deny => Ok(Stepped::Deny),
        Stepped::Pass => {
            let caller = Frame {
                domain: stack[CURRENT],
                back: target,
            };
            push(stack, caller, to);
            Ok(Stepped::Pass)
        }
    }
}

// The top frame is popped where its return address is the target, and its domain becomes current.
fn give_back(stack: &mut [u32; STACK_WORDS], target: ByteAddr) -> Result<Stepped, Refusal>
    requires { (stack_of stack.old).depth ≤ 16 }
    ensures { SteppedAs (given_back (stack_of stack.old) target) result stack.new }
{
    let depth = stack[DEPTH];
    if depth == 0 {
        return Err(Refusal::StackEmpty);
    }
    let caller = layout::frame_at(stack, depth as usize - 1);
    if caller.back != target {
        return Err(Refusal::OtherReturn);
    }
    stack[DEPTH] = depth - 1;
    stack[CURRENT] = caller.domain;
    Ok(Stepped::Pass)
}

pub(crate) fn return_step(
    pool: &[u32],
    shape: Shape,
    stack: &mut [u32; STACK_WORDS],
    address: ByteAddr,
    target: ByteAddr,
) -> Result<Stepped, Refusal>
    requires { (stack_of stack.old).depth ≤ 16 }
    ensures { SteppedAs (return_step (fetch_of pool.now shape address.0)
        (stack_of stack.old) target) result stack.new }
{
    match fetch(pool, shape, stack[CURRENT], address)? {
        Stepped::Deny => Ok(Stepped::Deny),
        Stepped::Pass => give_back(stack, target),
    }
}
