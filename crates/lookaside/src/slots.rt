// One slot of the buffer: whether it holds anything, whether it matches, which right it gives, and whether it meets a
// region.
ghost use Rattle.std.specs.Prelude.{◌≡◌, true, ◌*◌, ◌/◌};
ghost use Rattle.lookaside.specs.Slots.{block_bytes, is_level, holds_for, good_entry, matches, slot_right, empty_slot};
ghost use Rattle.lookaside.specs.Flushes.{meets};

use super::Slot;
use words::{ByteAddr, Region};

// How many bytes the block of a level has. Each level has its number here, so that nothing is multiplied.
pub fn block_bytes(level: u32) -> u32
    ensures { result ≡ block_bytes level }
{
    match level {
        0 | 1 => table::BLOCK_BYTES,
        2 => table::PAGE_BYTES,
        _ => table::LINE_BYTES,
    }
}

// The first byte of the block of a level that an address lies in.
pub fn block_of(level: u32, address: ByteAddr) -> ByteAddr
    ensures { result ≡ record { 0 = address.0 / block_bytes level * block_bytes level } }
{
    let a = u32::from(address);
    ByteAddr::from(a - a % block_bytes(level))
}

// Whether a level is one of the three.
pub fn is_level(level: u32) -> bool
    ensures { result ≡ is_level level }
{
    matches!(level, 1..=3)
}

// Whether an entry is good rights for a level; in a leaf every value is.
pub fn good_entry(level: u32, entry: u32) -> bool
    ensures { result ≡ good_entry level entry }
{
    level == 3 || words::good_rights(entry)
}

impl Slot {
    // An emptied slot: zero in every field.
    pub(crate) fn empty() -> Slot
        ensures { result ≡ empty_slot }
    {
        Slot {
            domain: 0,
            level: 0,
            block: ByteAddr::from(0),
            entry: 0,
        }
    }

    // Whether the slot holds anything, for this domain. A block is aligned where it is the block of its own first byte.
    #[tactic(auto, using(crate::proofs::SlotLaws::holds_test))]
    pub(crate) fn holds_for(self, domain: u32) -> bool
        ensures { result ≡ holds_for self domain }
    {
        self.domain == domain
            && is_level(self.level)
            && block_of(self.level, self.block) == self.block
    }

    // Whether the slot answers for an address. One comparison says that the block is aligned and that the address lies
    // in it.
    #[tactic(auto, using(crate::proofs::SlotLaws::match_test))]
    pub(crate) fn matches(self, domain: u32, address: ByteAddr) -> bool
        ensures { result ≡ matches self domain address.0 }
    {
        self.domain == domain
            && is_level(self.level)
            && block_of(self.level, address) == self.block
            && good_entry(self.level, self.entry)
    }

    // The right that the entry of a slot that matches gives to an address.
    pub(crate) fn right_at(self, address: ByteAddr) -> u32
        requires { is_level self.level ≡ true }
        ensures { result ≡ slot_right self address.0 }
    {
        words::right_at(self.entry, table::part_in(3 - self.level, address))
    }

    // Whether the slot's block and a region share a byte. An end may be 2^32, which 32 bits do not hold.
    #[tactic(auto, unfolding(crate::specs::Flushes::meets))]
    pub(crate) fn meets(self, region: Region) -> bool
        ensures { result ≡ meets self region }
    {
        let first = u64::from(u32::from(self.block));
        let size = u64::from(block_bytes(self.level));
        first < 4 * u64::from(region.hi) && 4 * u64::from(region.lo) < first + size
    }
}
