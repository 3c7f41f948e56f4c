// The stretch of one right around a part of an entry, found without going from part to part.
ghost use Rattle.std.specs.Prelude.{cond, ◌≡◌, ℕ, suc, ◌<◌, ◌≤◌, eqb};
ghost use Rattle.words.specs.Rights.{right_at};
ghost use Rattle.words.specs.Stretches.{Longest};

use super::right_at;

// The right of the parts of an entry, from the first to the last.
#[derive(Clone, Copy, PartialEq, Eq)]
pub struct Stretch {
    pub right: u32,
    pub first: u32,
    pub last: u32,
}

// Where the right turns: 1 in place i exactly where right i + 1 is not right i, else 0.
fn turns_in(w: u32) -> u32
    ensures { (i : ℕ) → i < 16 → right_at result i ≡ cond (eqb (right_at w i) (right_at w (suc i))) 0 1 }
{
    let other = w ^ (w >> 2);
    (other | (other >> 1)) & 0x5555_5555
}

// The longest stretch of one right around part `i` of the `parts` that the entry `w` has. It begins after the last turn
// before the part, and ends at the first turn from the part on.
pub fn stretch_at(w: u32, parts: u32, i: u32) -> Stretch
    requires { (i < parts) × (parts ≤ 16) }
    ensures { (result.right ≡ right_at w i) × Longest (right_at w) 0 parts i result.first result.last }
{
    let turns = turns_in(w);
    let before = turns % (1 << (2 * i));
    let first = (33 - u32::leading_zeros(before)) / 2;
    let alike = u32::trailing_zeros(turns >> (2 * i)) / 2;
    let last = u32::min(i + alike, parts - 1);
    Stretch {
        right: right_at(w, i),
        first,
        last,
    }
}
