// The listing as text, a page at a time.
ghost use Rattle.std.specs.Prelude.{◌*◌, ◌≤◌, ◌≡◌, length, take};
ghost use Rattle.rights_listing.specs.Text.{end_of, text};
ghost use Rattle.rights_listing.specs.Pages.{ShowsPage};

use crate::serving::shape;
use crate::text::write_number;

// The runs of a page.
pub const RUNS: usize = 1024;

// What came of a page: how many bytes were written, and how many runs come after it. (There is no heap: the bytes are
// lent.)
#[derive(Clone, Copy)]
pub struct Page {
    pub len: usize,
    pub left: usize,
}

// The byte after word `i` of the runs: each fourth ends a line.
#[tactic(auto, unfolding(crate::specs::Text::end_of))]
fn end_of(i: usize) -> u8
    ensures { result ≡ end_of 4 i }
{
    if i % 4 == 3 { b'\n' } else { b' ' }
}

// Writes the words of runs, four to a line: how many bytes they took.
fn write_fours(out: &mut [u8], runs: &[u32]) -> usize
    requires { 11 * length runs.now ≤ length out.old }
    ensures { (result ≤ 11 * length runs.now) × (take result out.new ≡ text 4 runs.now) }
{
    let mut len = 0;
    for (i, word) in runs.iter().enumerate() {
        len = write_number(out, len, *word, end_of(i));
    }
    len
}

// Writes the runs from number `from` on, as many as a page has.
pub fn write_page(pool: &[u32], from: u32, out: &mut [u8]) -> Page
    requires { 45056 ≤ length out.old }
    ensures { ShowsPage pool.now from result out.new }
{
    let mut runs = [0u32; 4 * RUNS];
    // A pool that is not sound has no runs, and so a page of nothing; the program's is sound.
    let Ok(n) = listing::list_runs(pool, shape(), from, &mut runs) else {
        return Page { len: 0, left: 0 };
    };
    let rest = n.saturating_sub(from as usize);
    let now = rest.min(RUNS);
    let len = write_fours(out, &runs[..4 * now]);
    Page {
        len,
        left: rest - now,
    }
}
