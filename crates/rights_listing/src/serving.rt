// Lines are answered: each with a number, and the numbers as text.
ghost use Rattle.std.specs.Prelude.{◌*◌, ◌≤◌, ◌≡◌, length};
ghost use Rattle.rights_listing.specs.Serves.{whole, Serves, ServesChunk, ServesLast};

use crate::text::write_number;
use lines::{LineSoFar, NotOfForm, Request};
use table::Shape;
use words::ByteAddr;

// An allowance that suffices: no pool has as many words.
const SUFFICES: u32 = u32::MAX;

// The number for a line that is not of the form: what is written for a line is a number.
const NOT_OF_FORM: u32 = 99;

// What came of a chunk: how many bytes were written, and the line that has begun. (There is no heap: the bytes are lent.)
#[derive(Clone, Copy)]
pub struct Served {
    pub len: usize,
    pub line: LineSoFar,
}

// The program's pool.
pub fn shape() -> Shape
    ensures { result ≡ whole }
{
    Shape {
        domains: 4,
        middles: 8,
        leaves: 64,
    }
}

// The number for a line. No change is cut: a pool of this shape has fewer words than the allowance.
fn reply(pool: &mut [u32], said: Result<Request, NotOfForm>) -> u32
    ensures { Serves pool.old said result pool.new }
{
    let Ok(asked) = said else {
        return NOT_OF_FORM;
    };
    let start = ByteAddr::from(asked.start);
    match change::change(
        pool,
        shape(),
        asked.domain,
        start,
        asked.length,
        asked.right,
        SUFFICES,
    ) {
        Ok(_) => 0,
        Err(refusal) => u32::from(refusal),
    }
}

// Answers each line that ends in a chunk. A number and its newline take at most 11 bytes, and a line at least one.
pub fn serve(pool: &mut [u32], chunk: &[u8], line: LineSoFar, out: &mut [u8]) -> Served
    requires { 11 * length chunk.now ≤ length out.old }
    ensures { ServesChunk chunk.now line pool.old result
        pool.new out.new }
{
    let mut begun = line;
    let mut at = 0;
    let mut len = 0;
    // By unequal strides, from line to line.
    loop {
        let fed = lines::feed(chunk, at, begun);
        let Some(said) = fed.found else {
            return Served {
                len,
                line: fed.line,
            };
        };
        len = write_number(out, len, reply(pool, said), b'\n');
        begun = fed.line;
        at = fed.next;
    }
}

// Answers a last line that no newline ended: how many bytes were written.
pub fn serve_last(pool: &mut [u32], line: LineSoFar, out: &mut [u8]) -> usize
    requires { 11 ≤ length out.old }
    ensures { ServesLast line pool.old result pool.new out.new }
{
    match lines::last_line(line) {
        None => 0,
        Some(said) => write_number(out, 0, reply(pool, said), b'\n'),
    }
}
