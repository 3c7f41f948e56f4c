// Gates and frames in their lent words, as the C interface lays them out: one read, one stored. A supervisor keeps
// them in its own memory, so they are no arrays of gates and frames. Each kind has fields of its own, and so its own two
// functions.
ghost use Rattle.std.specs.Prelude.{◌≡◌, ◌*◌, ◌<◌};
ghost use Rattle.std.proofs.lemmas.List.Edits.{sets};
ghost use Rattle.gates.specs.Layout.{gate_said, gate_word, gate_at, gate_words, frame_at, frame_words};

use crate::{Frame, GATES_WORDS, Gate, GateAt, STACK_WORDS};
use words::ByteAddr;

// The word of a return gate; any other word is the destination of a switch.
const RETURN_WORD: u32 = 0xFFFF_FFFF;

// The gate that a word says.
impl From<u32> for Gate {
    ghost from_gives = { λ w g. g ≡ gate_said w };

    fn from(w: u32) -> Gate {
        match w {
            RETURN_WORD => Gate::Return,
            to => Gate::Switch(to),
        }
    }
}

// The word of a gate.
impl From<Gate> for u32 {
    ghost from_gives = { λ g w. w ≡ gate_word g };

    fn from(gate: Gate) -> u32 {
        match gate {
            Gate::Switch(to) => to,
            Gate::Return => RETURN_WORD,
        }
    }
}

pub(crate) fn gate_at(gates: &[u32; GATES_WORDS], i: usize) -> GateAt
    requires { i < 64 }
    ensures { result ≡ gate_at gates.now (3 * i) }
{
    GateAt {
        domain: gates[3 * i],
        address: ByteAddr::from(gates[3 * i + 1]),
        gate: Gate::from(gates[3 * i + 2]),
    }
}

pub(crate) fn put_gate(gates: &mut [u32; GATES_WORDS], i: usize, g: GateAt)
    requires { i < 64 }
    ensures { gates.new ≡ sets gates.old (3 * i) (gate_words g) }
{
    gates[3 * i] = g.domain;
    gates[3 * i + 1] = u32::from(g.address);
    gates[3 * i + 2] = u32::from(g.gate);
}

pub(crate) fn frame_at(stack: &[u32; STACK_WORDS], i: usize) -> Frame
    requires { i < 16 }
    ensures { result ≡ frame_at stack.now (2 * i) }
{
    Frame {
        domain: stack[2 * i],
        back: ByteAddr::from(stack[2 * i + 1]),
    }
}

pub(crate) fn put_frame(stack: &mut [u32; STACK_WORDS], i: usize, f: Frame)
    requires { i < 16 }
    ensures { stack.new ≡ sets stack.old (2 * i) (frame_words f) }
{
    stack[2 * i] = f.domain;
    stack[2 * i + 1] = u32::from(f.back);
}
