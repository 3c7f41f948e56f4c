// The listing program: sets rights as the lines of standard input ask, answers each line with a number, and at the end
// lists the rights.
//
// No contract can say what is read or written, so the work is done on slices: `serving` answers the lines of a chunk,
// `pages` writes the listing a page at a time, `text` writes numbers. What is left here reads, hands over and writes.
// Where it must stop before the end, it says why on standard error.
#![tactic(auto)]

mod pages;
mod serving;
mod text;

ghost use Rattle.std.specs.Prelude.{◌≡◌, IfErr};
ghost use Rattle.rights_listing.specs.Serves.{HearsOnce, HearsLast, HearsAll};
ghost use Rattle.rights_listing.specs.Pages.{HandsOver, ShowsAll};

use lines::LineSoFar;
use std::error::Error;
use std::fmt;
use std::io::{Print, Read, Stdin, Stdout};

// Why the program stops before the end.
#[derive(Clone, Copy, Debug, PartialEq, Eq)]
enum Stopped {
    TooLong,
    NoInput,
    NoOutput,
}

impl fmt::Display for Stopped {
    fn fmt<W: fmt::Write>(&self, f: &mut fmt::Formatter<W>) -> fmt::Result {
        match self {
            Stopped::TooLong => write!(f, "The input is too long."),
            Stopped::NoInput => write!(f, "The input cannot be read."),
            Stopped::NoOutput => write!(f, "The output cannot be written."),
        }
    }
}

impl Error for Stopped {}

// Hands bytes over to be written.
fn write(output: Stdout, bytes: &[u8]) -> Result<(), Stopped>
    ensures { IfErr result (λ e. e ≡ Stopped.NoOutput) }
{
    output.write_all(bytes).map_err(|_| Stopped::NoOutput)
}

// Reads once and answers each line that has ended: whether a chunk came, or the end of the input. A chunk comes as soon
// as there is one, so that each line is answered before the next is waited for.
fn hear(
    mut input: Stdin,
    output: Stdout,
    pool: &mut [u32],
    line: &mut LineSoFar,
) -> Result<bool, Stopped>
    ensures { HearsOnce line.old pool.old result line.new pool.new }
{
    let mut chunk = [0u8; 4096];
    let Ok(n) = input.read(&mut chunk) else {
        return Err(Stopped::NoInput);
    };
    if n == 0 {
        return Ok(false);
    }
    let mut out = [0u8; 65536];
    let served = serving::serve(pool, &chunk[..n], *line, &mut out);
    *line = served.line;
    write(output, &out[..served.len])?;
    Ok(true)
}

// Answers a last line that no newline ended.
fn hear_last(output: Stdout, pool: &mut [u32], line: LineSoFar) -> Result<(), Stopped>
    ensures { HearsLast line pool.old result pool.new }
{
    let mut out = [0u8; 4096];
    let len = serving::serve_last(pool, line, &mut out);
    write(output, &out[..len])
}

// Answers every line, and then a last one that no newline ended. Nothing in a contract bounds an input, and a proved
// loop must end: it turns as often as a number of 64 bits counts, and to come to that end is an outcome of its own.
fn hear_all(input: Stdin, output: Stdout, pool: &mut [u32]) -> Result<(), Stopped>
    ensures { HearsAll pool.old result pool.new }
{
    let mut line = lines::blank_line();
    for _ in 0..u64::MAX {
        let came = hear(input, output, pool, &mut line)?;
        if !came {
            return hear_last(output, pool, line);
        }
    }
    Err(Stopped::TooLong)
}

// Hands a page over to be written: how many runs come after it.
fn show(output: Stdout, pool: &[u32], from: u32) -> Result<usize, Stopped>
    ensures { HandsOver pool.now from result }
{
    let mut out = [0u8; 65536];
    let page = pages::write_page(pool, from, &mut out);
    write(output, &out[..page.len])?;
    Ok(page.left)
}

// Writes the listing, page after page until nothing is left: how many pages.
fn show_all(output: Stdout, pool: &[u32]) -> Result<usize, Stopped>
    ensures { ShowsAll pool.now result }
{
    let mut count = 0;
    // How many pages there are is known only at the last.
    loop {
        let left = show(output, pool, (count * pages::RUNS) as u32)?;
        count += 1;
        if left == 0 {
            return Ok(count);
        }
    }
}

// Hears the input and shows the listing.
fn run(input: Stdin, output: Stdout) -> Result<usize, Stopped> {
    let mut pool = [0u32; 16384];
    table::fresh(&mut pool, serving::shape()).unwrap();
    hear_all(input, output, &mut pool)?;
    show_all(output, &pool)
}

// Where it stops before the end of either, it says so.
fn main(rt: HostRuntime) {
    if let Err(stopped) = run(rt.stdin(), rt.stdout()) {
        let _ = eprintln!(rt; "{stopped}");
    }
}
