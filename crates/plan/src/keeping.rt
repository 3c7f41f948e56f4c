// Which tables a change keeps: a new table may take any place where none of them stands.
ghost use Rattle.std.specs.Prelude.{◌≡◌};
ghost use Rattle.plan.specs.Edges.{stays_of, owner_stays};

use crate::Ends;
use census::NONE;

// Whether block `n` of domain `e`, which has a table, wants it after the change too: only the change's own domain is
// touched, and there only the blocks from the first edge to the last; those between the two are covered whole.
fn still_wanted(domain: u32, ends: Ends, e: u32, n: u32) -> bool
    ensures { result ≡ stays_of domain ends e n }
{
    if e != domain {
        true
    } else if n == ends.first.number {
        ends.first.last < words::BIT_31
    } else if n == ends.last.number {
        ends.last.last < words::BIT_31
    } else {
        n < ends.first.number || ends.last.number < n
    }
}

// Whether the table at a place of a height, by the place's owner, is kept.
pub fn is_kept(height: u32, domain: u32, ends: Ends, owner: u32) -> bool
    ensures { result ≡ owner_stays height domain ends owner }
{
    owner != NONE
        && still_wanted(
            domain,
            ends,
            census::domain_of(height, owner),
            census::block_in_domain(height, owner),
        )
}
