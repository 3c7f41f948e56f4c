// Why a call is refused: one type for all crates, with the number and a sentence of each refusal.
#![tactic(auto)]

ghost use Rattle.std.specs.Prelude.{◌≡◌};
ghost use Rattle.refusals.specs.Refusals.{number};

use std::error::Error;
use std::fmt;

// The refusals, in the order of their numbers.
#[derive(Clone, Copy, Debug, PartialEq, Eq)]
pub enum Refusal {
    NoShape,
    NoDomain,
    NoRight,
    EmptyRegion,
    PastTheEnd,
    NotSound,
    NotSettled,
    NoRoom,
    NoAccess,
    NotAligned,
    GateNotAligned,
    GatesFull,
    NoGate,
    GateToItself,
    StackFull,
    StackEmpty,
    OtherReturn,
    BadState,
    NotAllowed,
    RegionsFull,
    WrongLength,
}

// The number that a user of the library is told. None is 0, which says that a call is done, or 100, which says that
// it was cut.
impl From<Refusal> for u32 {
    ghost from_gives = { λ r n. n ≡ number r };

    fn from(r: Refusal) -> u32 {
        match r {
            Refusal::NoShape => 1,
            Refusal::NoDomain => 2,
            Refusal::NoRight => 3,
            Refusal::EmptyRegion => 4,
            Refusal::PastTheEnd => 5,
            Refusal::NotSound => 6,
            Refusal::NotSettled => 7,
            Refusal::NoRoom => 8,
            Refusal::NoAccess => 9,
            Refusal::NotAligned => 10,
            Refusal::GateNotAligned => 11,
            Refusal::GatesFull => 12,
            Refusal::NoGate => 13,
            Refusal::GateToItself => 14,
            Refusal::StackFull => 15,
            Refusal::StackEmpty => 16,
            Refusal::OtherReturn => 17,
            Refusal::BadState => 18,
            Refusal::NotAllowed => 19,
            Refusal::RegionsFull => 20,
            Refusal::WrongLength => 101,
        }
    }
}

impl fmt::Display for Refusal {
    fn fmt<W: fmt::Write>(&self, f: &mut fmt::Formatter<W>) -> fmt::Result {
        f.write_str(match self {
            Refusal::NoShape =>
                "the shape has no such form or sizes, or the pool is of another length",
            Refusal::NoDomain => "there is no such domain",
            Refusal::NoRight => "the right is above 3",
            Refusal::EmptyRegion => "the length is 0",
            Refusal::PastTheEnd => "the region ends past the end of the memory",
            Refusal::NotSound => "the pool is not sound, or the walk met a bad entry",
            Refusal::NotSettled => "the pool is sound but not settled: it must be tidied first",
            Refusal::NoRoom => "there are not enough places for the tables of these rights",
            Refusal::NoAccess => "there is no such kind or size of access",
            Refusal::NotAligned =>
                "the address or target is not a multiple of the size of the access",
            Refusal::GateNotAligned => "the address of the gate is not a multiple of 4",
            Refusal::GatesFull => "the gate is new, and as many gates as may be are present",
            Refusal::NoGate => "there is no gate to remove",
            Refusal::GateToItself => "the switch gate leads to its own domain",
            Refusal::StackFull => "the call stack is full at a switch gate",
            Refusal::StackEmpty => "the call stack is empty at a return gate",
            Refusal::OtherReturn =>
                "the return gate goes to another address than the call came from",
            Refusal::BadState => "a count, a depth or a next slot in the lent words is too large",
            Refusal::NotAllowed => "the list of regions does not allow it to this caller",
            Refusal::RegionsFull => "the region is new, and as many regions as may be are present",
            Refusal::WrongLength => "the lent words are not as many as their layout has",
        })
    }
}

impl Error for Refusal {}

// What no proof sees: a refusal's sentence is what a reader is to be told.
#[cfg(test)]
mod tests {
    use super::*;
    use std::test::Fail;

    #[test]
    fn each_says_its_sentence(rt: HostRuntime) -> Result<(), Fail> {
        let cases = [
            (Refusal::NoRight, "the right is above 3"),
            (Refusal::EmptyRegion, "the length is 0"),
            (
                Refusal::GateToItself,
                "the switch gate leads to its own domain",
            ),
            (
                Refusal::WrongLength,
                "the lent words are not as many as their layout has",
            ),
        ];
        for (refusal, says) in cases {
            assert_eq!(rt; format!(in rt.alloc(); "{refusal}")?.as_str(), says);
        }
        Ok(())
    }
}
