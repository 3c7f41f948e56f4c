// Checks of loads, stores and fetches through a lookaside buffer, and the buffer's flushes. The buffer is worked on in
// the words that are lent for it.
#![tactic(auto)]

ghost use Rattle.std.specs.Prelude.{◌≡◌, ◌<◌, ◌%◌, ltb};
ghost use Rattle.lookaside.specs.Slots.{empty_buffer};
ghost use Rattle.lookaside.specs.Flushes.{Flushing, Tells, flushed_buffer, flushed_whole, flushed_domain};
ghost use Rattle.lookaside.specs.Flushes.{flushed_region};
ghost use Rattle.lookaside.specs.Check.{is_access, demand, refusal_of, verdict_of, check_of};
ghost use Rattle.lookaside.specs.Layout.{buffer_of, buffer_words, CheckedAs, FlushedAs};

use refusals::Refusal;
use table::Shape;
use words::ByteAddr;

mod layout;
mod slots;

// How many slots a buffer has.
pub const SLOTS: u32 = 64;

// The words of a buffer: 64 slots of four, then next.
pub const BUFFER_WORDS: usize = 257;

// Which word of a buffer is next, its pointer.
const NEXT: usize = 256;

// One entry that decided a lookup, for a domain and the block of a level (1 root, 2 middle, 3 leaf). Its fields are the
// words as they lie in the buffer: lent words may hold any number, so the level is one too.
#[derive(Clone, Copy)]
pub struct Slot {
    pub domain: u32,
    pub level: u32,
    pub block: ByteAddr,
    pub entry: u32,
}

// What a check that is not refused says: it passes or is denied, after as many loads.
#[derive(Clone, Copy)]
pub enum Verdict {
    Pass(u32),
    Deny(u32),
}

// Whether there are accesses of this kind and size. Both stay numbers: they come from outside, `check` answers for any,
// and `table::passes` takes the kind as it came.
fn is_access(kind: u32, size: u32) -> bool
    ensures { result ≡ is_access kind size }
{
    match kind {
        table::LOAD | table::STORE => matches!(size, 1 | 2 | 4),
        table::FETCH => size == 4,
        _ => false,
    }
}

// How far an address lies past a multiple of a size. Nothing is divided for a size that there are accesses of.
fn past_size(a: u32, size: u32) -> u32
    requires { 0 < size }
    ensures { result ≡ a % size }
{
    match size {
        4 => a % 4,
        2 => a % 2,
        1 => 0,
        _ => a % size,
    }
}

// Whether the pointer is a slot's.
fn pointer_refusal(next: u32) -> Result<(), Refusal>
    ensures { result ≡ demand (ltb next SLOTS) Refusal.BadState (Ok tt) }
{
    if next >= SLOTS {
        return Err(Refusal::BadState);
    }
    Ok(())
}

// The refusal of a check before it asks the buffer. The size is a divisor only once it is known to be a size.
#[tactic(auto, using(crate::proofs::CheckLaws::access_some), unfolding(crate::specs::Check::refusal_of))]
fn check_refusal(
    shape: Shape,
    long: usize,
    next: u32,
    domain: u32,
    kind: u32,
    size: u32,
    address: ByteAddr,
) -> Result<(), Refusal>
    ensures { result ≡ refusal_of shape long next domain kind size address.0 }
{
    if !table::shape_fits(shape, long) {
        return Err(Refusal::NoShape);
    }
    pointer_refusal(next)?;
    if domain >= shape.domains {
        return Err(Refusal::NoDomain);
    }
    if !is_access(kind, size) {
        return Err(Refusal::NoAccess);
    }
    if past_size(u32::from(address), size) != 0 {
        return Err(Refusal::NotAligned);
    }
    Ok(())
}

// What an access makes of a right.
fn judge(kind: u32, right: u32, loads: u32) -> Verdict
    ensures { result ≡ verdict_of kind right loads }
{
    if table::passes(kind, right) {
        Verdict::Pass(loads)
    } else {
        Verdict::Deny(loads)
    }
}

// The check of an access of a domain: answered by the buffer with no load, or by the pool. A hit stores nothing in the
// buffer's words. A miss asks the pool as a lookup does, and keeps the deciding entry, whether it passes or not: it
// stores one slot and the pointer.
#[tactic(auto, using(crate::proofs::LayoutLaws::buffer_words_lem), unfolding(crate::specs::Check::check_of))]
pub fn check(
    pool: &[u32],
    shape: Shape,
    buffer: &mut [u32; BUFFER_WORDS],
    domain: u32,
    kind: u32,
    size: u32,
    address: ByteAddr,
) -> Result<Verdict, Refusal>
    ensures { CheckedAs (check_of pool.now shape (buffer_of buffer.old) domain kind size
        address.0) result buffer.new }
{
    check_refusal(shape, pool.len(), buffer[NEXT], domain, kind, size, address)?;
    if let Some(slot) = layout::find(buffer, domain, address) {
        return Ok(judge(kind, slot.right_at(address), 0));
    }
    let by = table::decide(pool, shape, domain, address)?;
    let slot = Slot {
        domain,
        level: by.loads,
        block: slots::block_of(by.loads, address),
        entry: by.entry,
    };
    layout::fill_next(buffer, slot);
    Ok(judge(kind, by.right, by.loads))
}

// The one loop of all flushes: it stores into the slots that it empties; the pointer stays.
fn flush<F>(ws: &mut [u32; BUFFER_WORDS], empties: F)
where
    F: Fn(Slot) -> bool,
    requires { F.IsAlwaysCallable empties }
    ensures { (f : Flushing) → Tells (F.post empties) f → ws.new ≡ buffer_words (flushed_buffer f (buffer_of ws.old)) }
{
    for i in 0..SLOTS as usize {
        let s = layout::slot_at(ws, 4 * i);
        if empties(s) {
            layout::put_slot(ws, 4 * i, Slot::empty());
        }
    }
}

// The buffer after a reset, whatever its words were.
pub fn emptied(buffer: &mut [u32; BUFFER_WORDS])
    ensures { buffer.new ≡ buffer_words empty_buffer }
{
    buffer.fill(0);
}

// Empties every slot.
#[tactic(auto, using(crate::proofs::LayoutLaws::buffer_words_lem), unfolding(crate::specs::Flushes::pointed))]
pub fn flush_all(buffer: &mut [u32; BUFFER_WORDS]) -> Result<(), Refusal>
    ensures { FlushedAs (flushed_whole (buffer_of buffer.old)) result buffer.new }
{
    pointer_refusal(buffer[NEXT])?;
    flush(buffer, |_| true);
    Ok(())
}

// Empties the slots of a domain, which may be any number.
#[tactic(auto, using(crate::proofs::LayoutLaws::buffer_words_lem), unfolding(crate::specs::Flushes::pointed))]
pub fn flush_domain(buffer: &mut [u32; BUFFER_WORDS], domain: u32) -> Result<(), Refusal>
    ensures { FlushedAs (flushed_domain (buffer_of buffer.old) domain) result buffer.new }
{
    pointer_refusal(buffer[NEXT])?;
    flush(buffer, |s| s.holds_for(domain));
    Ok(())
}

// Empties the slots of a domain whose block meets a region, which is rounded and refused as a change's.
#[tactic(auto, using(crate::proofs::LayoutLaws::buffer_words_lem), unfolding(crate::specs::Flushes::pointed))]
pub fn flush_region(
    buffer: &mut [u32; BUFFER_WORDS],
    domain: u32,
    start: ByteAddr,
    length: u32,
) -> Result<(), Refusal>
    ensures { FlushedAs (flushed_region (buffer_of buffer.old) domain start.0 length) result
        buffer.new }
{
    pointer_refusal(buffer[NEXT])?;
    let region = words::round_region(start, length)?;
    flush(buffer, |s| { s.holds_for(domain) && s.meets(region) });
    Ok(())
}
