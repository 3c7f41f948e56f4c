// The buffer in its lent words: a slot read and stored, the search, and a fill.
ghost use Rattle.std.specs.Prelude.{◌≡◌, ◌||◌, ◌+◌, ◌<◌, ◌≤◌, eqb, get_or};
ghost use Rattle.std.proofs.lemmas.List.Edits.{sets};
ghost use Rattle.lookaside.specs.Slots.{first_match, filled};
ghost use Rattle.lookaside.specs.Layout.{slot_at, slot_words, buffer_long, buffer_of, buffer_words};

use super::{BUFFER_WORDS, NEXT, SLOTS, Slot, slots};
use words::ByteAddr;

pub fn slot_at(ws: &[u32; BUFFER_WORDS], at: usize) -> Slot
    requires { at + 4 ≤ buffer_long }
    ensures { result ≡ slot_at ws.now at }
{
    Slot {
        domain: ws[at],
        level: ws[at + 1],
        block: ByteAddr::from(ws[at + 2]),
        entry: ws[at + 3],
    }
}

pub fn put_slot(ws: &mut [u32; BUFFER_WORDS], at: usize, s: Slot)
    requires { at + 4 ≤ buffer_long }
    ensures { ws.new ≡ sets ws.old at (slot_words s) }
{
    ws[at] = s.domain;
    ws[at + 1] = s.level;
    ws[at + 2] = u32::from(s.block);
    ws[at + 3] = s.entry;
}

// Whether a block's first byte is one of three.
fn one_of(block: ByteAddr, root: ByteAddr, middle: ByteAddr, leaf: ByteAddr) -> bool
    ensures { result ≡ (eqb root.0 block.0 || eqb middle.0 block.0 || eqb leaf.0 block.0) }
{
    root == block || middle == block || leaf == block
}

// The lowest slot that matches. Most slots are passed over by one word: a slot that matches has the block of its level
// that the address lies in. A chain of `map` and `find` would make each slot whole before it asks.
pub fn find(ws: &[u32; BUFFER_WORDS], domain: u32, address: ByteAddr) -> Option<Slot>
    ensures { result ≡ first_match (buffer_of ws.now).slots domain address.0 }
{
    let root = slots::block_of(1, address);
    let middle = slots::block_of(2, address);
    let leaf = slots::block_of(3, address);
    for i in 0..SLOTS as usize {
        if one_of(ByteAddr::from(ws[4 * i + 2]), root, middle, leaf) {
            let s = slot_at(ws, 4 * i);
            if s.matches(domain, address) {
                return Some(s);
            }
        }
    }
    None
}

// A slot stored at the pointer, which moves on.
pub fn fill_next(ws: &mut [u32; BUFFER_WORDS], s: Slot)
    requires { get_or ws.old NEXT 0 < SLOTS }
    ensures { ws.new ≡ buffer_words (filled (buffer_of ws.old) s) }
{
    let next = ws[NEXT];
    put_slot(ws, 4 * (next as usize), s);
    ws[NEXT] = (next + 1) % SLOTS;
}
