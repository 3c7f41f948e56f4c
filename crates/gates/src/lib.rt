// Gates, the call stack and one fetch step: how a program passes from one domain into another and comes home. Gate set
// and stack are worked on in the words that are lent for them.
#![tactic(auto)]

mod layout;
mod places;
mod steps;

ghost use Rattle.std.specs.Prelude.{◌≡◌};
ghost use Rattle.gates.specs.Gates.{no_gates, set_of, remove_of};
ghost use Rattle.gates.specs.Steps.{empty_stack, step_of};
ghost use Rattle.gates.specs.Layout.{gates_of, gates_words, stack_of, stack_words};
ghost use Rattle.gates.specs.Layout.{SetAs, SteppedAs};

use refusals::Refusal;
use table::Shape;
use words::ByteAddr;

// How many gates a set holds, and how many frames a call stack.
pub const MAX_GATES: u32 = 64;

pub const MAX_DEPTH: u32 = 16;

// The words of a gate set: 64 gates of three, then the count.
pub const GATES_WORDS: usize = 193;

// The words of a call stack: 16 frames of two, then the depth, then the current domain.
pub const STACK_WORDS: usize = 34;

// Which word of a gate set is the count, and which of a stack the depth and the current domain.
const COUNT: usize = 192;

const DEPTH: usize = 32;

const CURRENT: usize = 33;

// What a gate does: it switches to a destination domain, or it returns.
#[derive(Clone, Copy, Debug, PartialEq, Eq)]
pub enum Gate {
    Switch(u32),
    Return,
}

// A gate, with the domain and the address where it stands.
#[derive(Clone, Copy)]
pub struct GateAt {
    pub domain: u32,
    pub address: ByteAddr,
    pub gate: Gate,
}

// Who called, and the address to return to.
#[derive(Clone, Copy)]
pub struct Frame {
    pub domain: u32,
    pub back: ByteAddr,
}

// What a step that is not refused answers.
#[derive(Clone, Copy, Debug, PartialEq, Eq)]
pub enum Stepped {
    Pass,
    Deny,
}

// A set that holds no gate, whatever its words were.
pub fn no_gates(gates: &mut [u32; GATES_WORDS])
    ensures { gates.new ≡ gates_words no_gates }
{
    let idle = GateAt {
        domain: 0,
        address: ByteAddr::from(0),
        gate: Gate::Return,
    };
    for i in 0..64 {
        layout::put_gate(gates, i, idle);
    }
    gates[COUNT] = 0;
}

// A stack with no frame, in a domain, whatever its words were.
pub fn call_stack(stack: &mut [u32; STACK_WORDS], domain: u32)
    ensures { stack.new ≡ stack_words (empty_stack domain) }
{
    let idle = Frame {
        domain: 0,
        back: ByteAddr::from(0),
    };
    for i in 0..16 {
        layout::put_frame(stack, i, idle);
    }
    stack[DEPTH] = 0;
    stack[CURRENT] = domain;
}

// Sets a gate: in the place of the one that stands there, else last. One gate is stored, and the count.
pub fn set_gate(
    domains: u32,
    gates: &mut [u32; GATES_WORDS],
    domain: u32,
    address: ByteAddr,
    gate: Gate,
) -> Result<(), Refusal>
    ensures { SetAs (set_of domains (gates_of gates.old) domain address gate) result gates.new }
{
    let count = gates[COUNT];
    places::place_refusal(domains, count, domain, gate, address)?;
    if places::leads_to(gate, domain) {
        return Err(Refusal::GateToItself);
    }
    let g = GateAt {
        domain,
        address,
        gate,
    };
    match places::place_of(gates, domain, address) {
        Some(place) => places::store_gate(gates, place, g, count),
        None if count == MAX_GATES => return Err(Refusal::GatesFull),
        None => places::store_gate(gates, count as usize, g, count + 1),
    }
    Ok(())
}

// Removes the gate that stands there, the earlier of two. The later ones move down.
pub fn remove_gate(
    domains: u32,
    gates: &mut [u32; GATES_WORDS],
    domain: u32,
    address: ByteAddr,
) -> Result<(), Refusal>
    ensures { SetAs (remove_of domains (gates_of gates.old) domain address) result gates.new }
{
    let count = gates[COUNT];
    // A return gate has no destination that could be refused, and a removal names none.
    places::place_refusal(domains, count, domain, Gate::Return, address)?;
    let place = places::place_of(gates, domain, address).ok_or(Refusal::NoGate)?;
    places::close_up(gates, place);
    Ok(())
}

// One fetch step: by a switch gate into its destination, by a return gate back to the caller, else within the current
// domain. It stores a frame, the depth and the current domain where it calls, and the last two where it returns.
pub fn fetch_step(
    pool: &[u32],
    shape: Shape,
    gates: &[u32; GATES_WORDS],
    stack: &mut [u32; STACK_WORDS],
    address: ByteAddr,
    target: ByteAddr,
) -> Result<Stepped, Refusal>
    ensures { SteppedAs (step_of pool.now shape (gates_of gates.now)
        (stack_of stack.old) address target) result stack.new }
{
    steps::step_refusal(pool.len(), shape, gates, stack, address, target)?;
    match places::gate_here(gates, stack[CURRENT], address) {
        None => steps::plain_step(pool, shape, stack, address),
        Some(Gate::Switch(to)) => steps::switch_step(pool, shape, stack, to, address, target),
        Some(Gate::Return) => steps::return_step(pool, shape, stack, address, target),
    }
}
