// How far the right of a deciding entry goes inside its block. Each level has its own numbers in the code, so that
// nothing is divided.
ghost use Rattle.std.specs.Prelude.{◌≡◌, ◌-◌, ◌≤◌};
ghost use Rattle.table.specs.Map.{part, parts, entry_rights};
ghost use Rattle.table.specs.Lookup.{decided_by};

use crate::Deciding;
use crate::geometry::{BLOCK_BYTES, PAGE_BYTES};
use words::ByteAddr;

// What the entry `w` decides of an address after so many loads, where each of its `count` rights is for `step` bytes.
fn reached_by(w: u32, loads: u32, address: ByteAddr, step: u32, count: u32) -> Deciding
    requires { (step ≡ part (3 - loads)) × (count ≡ parts (3 - loads)) × (loads ≤ 3) }
    ensures { result ≡ decided_by (entry_rights (3 - loads) w) (3 - loads) w address.0 }
{
    let number = u32::from(address) / step;
    let i = number % count;
    let around = words::stretch_at(w, count, i);
    let block = number - i;
    let first = ByteAddr::from((block + around.first) * step);
    let last = ByteAddr::from((block + around.last) * step + (step - 1));
    Deciding {
        right: around.right,
        entry: w,
        loads,
        first,
        last,
    }
}

// The same, by the level that decides.
pub fn reached(w: u32, loads: u32, address: ByteAddr) -> Deciding
    requires { (1 ≤ loads) × (loads ≤ 3) }
    ensures { result ≡ decided_by (entry_rights (3 - loads) w) (3 - loads) w address.0 }
{
    match loads {
        1 => reached_by(w, loads, address, BLOCK_BYTES / 8, 8),
        2 => reached_by(w, loads, address, PAGE_BYTES / 8, 8),
        _ => reached_by(w, loads, address, 4, 16),
    }
}
