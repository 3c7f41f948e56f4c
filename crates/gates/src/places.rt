// The gates held: which one stands at a place, what setting and removing refuse, and the stores that they make.
ghost use Rattle.std.specs.Prelude.{◌≡◌, ◌<◌, ◌≤◌, IfSome, OnOk};
ghost use Rattle.gates.specs.Gates.{stands_at, place_of, gate_of, leads_below, leads_to, place_refusal};
ghost use Rattle.gates.specs.Gates.{stored, without};
ghost use Rattle.gates.specs.Layout.{gates_of, gates_words};

use crate::{COUNT, GATES_WORDS, Gate, GateAt, MAX_GATES, layout};
use refusals::Refusal;
use words::ByteAddr;

// Whether a switch leads below D; a return leads nowhere of its own.
pub(crate) fn leads_below(gate: Gate, domains: u32) -> bool
    ensures { result ≡ leads_below domains gate }
{
    match gate {
        Gate::Switch(to) => to < domains,
        Gate::Return => true,
    }
}

pub(crate) fn leads_to(gate: Gate, domain: u32) -> bool
    ensures { result ≡ leads_to domain gate }
{
    gate == Gate::Switch(domain)
}

// What setting and removing refuse alike.
#[tactic(auto, unfolding(crate::specs::Gates::place_refusal))]
pub(crate) fn place_refusal(
    domains: u32,
    count: u32,
    domain: u32,
    gate: Gate,
    address: ByteAddr,
) -> Result<(), Refusal>
    ensures answer { result ≡ place_refusal domains count domain gate address.0 }
    ensures few { OnOk result (count ≤ 64) }
{
    if domains < 1 || domains > table::MAX_DOMAINS {
        return Err(Refusal::NoShape);
    }
    if count > MAX_GATES {
        return Err(Refusal::BadState);
    }
    if domain >= domains || !leads_below(gate, domains) {
        return Err(Refusal::NoDomain);
    }
    if u32::from(address) % 4 != 0 {
        return Err(Refusal::GateNotAligned);
    }
    Ok(())
}

fn stands_at(g: GateAt, domain: u32, address: ByteAddr) -> bool
    ensures { result ≡ stands_at domain address.0 g }
{
    g.domain == domain && g.address == address
}

// The place of the first gate that stands there, if one does. The earlier of two counts because the search goes up. That
// the count is at most 64 is a clause here and below: lent words may hold any, and the calls refuse what is more. The
// search of a list of regions goes over rows of another kind, of any test.
pub(crate) fn place_of(gates: &[u32; GATES_WORDS], domain: u32, address: ByteAddr) -> Option<usize>
    requires { (gates_of gates.now).count ≤ 64 }
    ensures place { result ≡ place_of (gates_of gates.now) domain address.0 }
    ensures held { IfSome result (λ k. k < (gates_of gates.now).count) }
{
    (0..gates[COUNT] as usize).find(|i| stands_at(layout::gate_at(gates, *i), domain, address))
}

pub(crate) fn gate_here(gates: &[u32; GATES_WORDS], domain: u32, address: ByteAddr) -> Option<Gate>
    requires { (gates_of gates.now).count ≤ 64 }
    ensures { result ≡ gate_of (gates_of gates.now) domain address.0 }
{
    let place = place_of(gates, domain, address)?;
    Some(layout::gate_at(gates, place).gate)
}

// One gate stored, and the count.
pub(crate) fn store_gate(gates: &mut [u32; GATES_WORDS], place: usize, g: GateAt, count: u32)
    requires { place < 64 }
    ensures { gates.new ≡ gates_words (stored (gates_of gates.old) place g count) }
{
    layout::put_gate(gates, place, g);
    gates[COUNT] = count;
}

// The later gates move down over a place; the place of the last keeps what it held.
pub(crate) fn close_up(gates: &mut [u32; GATES_WORDS], place: usize)
    requires { (place < (gates_of gates.old).count) × ((gates_of gates.old).count ≤ 64) }
    ensures { gates.new ≡ gates_words (without (gates_of gates.old) place) }
{
    let left = gates[COUNT] - 1;
    for i in place..left as usize {
        let next = layout::gate_at(gates, i + 1);
        layout::put_gate(gates, i, next);
    }
    gates[COUNT] = left;
}
