// The input of the listing program: what one line says, and lines out of the chunks in which standard input comes.
//
// Bytes go through `feed` once, into a line of at most 60, and a whole line is read by `parse`. Both take any bytes,
// and a line so far is any value of its type, so that a caller has nothing to show.
#![tactic(auto)]

ghost use Rattle.std.specs.Prelude.{◌≡◌, drop};
ghost use Rattle.lines.specs.Forms.{parse_of};
ghost use Rattle.lines.specs.Inner.{number_of, asked_of};
ghost use Rattle.lines.specs.Cuts.{words_of};
ghost use Rattle.lines.specs.Feeds.{blank_line, said_of, feed_of, last_of};

use std::error::Error;
use std::fmt;

const ROOM: usize = 60;

// A length that says that the line is too long; which one it is, `feed` promises.
const TOO_LONG: usize = ROOM + 1;

// What a line asks for.
#[derive(Clone, Copy, Debug, PartialEq, Eq)]
pub struct Request {
    pub domain: u32,
    pub start: u32,
    pub length: u32,
    pub right: u32,
}

// A line that asks for nothing. One that is over 60 bytes long is not of the form either; the program answers both
// with 99.
#[derive(Clone, Copy, Debug, PartialEq, Eq)]
pub struct NotOfForm;

impl fmt::Display for NotOfForm {
    fn fmt<W: fmt::Write>(&self, f: &mut fmt::Formatter<W>) -> fmt::Result {
        write!(f, "the line is not of the form")
    }
}

impl Error for NotOfForm {}

// The line whose end has not come yet. Every value means something: no line has begun where `len` is 0, and the line is
// too long where it is above 60. It is no `ArrayVec`, of which a promise can name the items but not the value: `feed`
// promises which line so far it hands back.
#[derive(Clone, Copy)]
pub struct LineSoFar {
    pub bytes: [u8; 60],
    pub len: usize,
}

// What came of a chunk: with what a whole line says, `next` is the place to go on from; with none, the chunk is used up.
#[derive(Clone, Copy)]
pub struct Fed {
    pub found: Option<Result<Request, NotOfForm>>,
    pub next: usize,
    pub line: LineSoFar,
}

// The number that a word writes. It is bounded at each digit, so that leading zeros cost nothing and no sum wraps. (What
// the library parses may begin with a sign.)
#[tactic(auto, using(crate::proofs::ReadLaws::reading))]
fn number(word: &[u8]) -> Option<u32>
    ensures { result ≡ number_of word.now }
{
    if word.is_empty() {
        return None;
    }
    let mut value: u32 = 0;
    for b in word {
        if !b.is_ascii_digit() {
            return None;
        }
        let digit = u32::from(*b - b'0');
        value = value.checked_mul(10)?.checked_add(digit)?;
    }
    Some(value)
}

// The request that a line makes: `S` and four numbers, each after one space, and nothing behind them.
fn request_in(line: &[u8]) -> Option<Request>
    ensures { result ≡ asked_of (words_of line.now) }
{
    let mut words = line.split(|b| *b == b' ');
    let [b'S'] = words.next()? else {
        return None;
    };
    let request = Request {
        domain: number(words.next()?)?,
        start: number(words.next()?)?,
        length: number(words.next()?)?,
        right: number(words.next()?)?,
    };
    match words.next() {
        None => Some(request),
        Some(_) => None,
    }
}

// What a line says, given without its newline.
#[tactic(auto, unfolding(crate::specs::Forms::parse_of, crate::specs::Inner::asked_of))]
pub fn parse(line: &[u8]) -> Result<Request, NotOfForm>
    ensures { result ≡ parse_of line.now }
{
    if line.len() > ROOM {
        return Err(NotOfForm);
    }
    request_in(line).ok_or(NotOfForm)
}

// No byte has come.
pub fn blank_line() -> LineSoFar
    ensures { result ≡ blank_line }
{
    LineSoFar {
        bytes: [0; 60],
        len: 0,
    }
}

// What a line says if it ends here.
#[tactic(auto, unfolding(crate::specs::Feeds::said_of))]
fn said(line: &LineSoFar) -> Result<Request, NotOfForm>
    ensures { result ≡ said_of line.now }
{
    if line.len <= ROOM {
        parse(&line.bytes[..line.len])
    } else {
        Err(NotOfForm)
    }
}

// Takes the bytes of a chunk from `from` on, up to a newline or the chunk's end.
#[tactic(auto, using(crate::proofs::StepLaws::feeding))]
pub fn feed(chunk: &[u8], from: usize, mut line: LineSoFar) -> Fed
    ensures { result ≡ feed_of from line (drop from chunk.now) }
{
    for i in from..chunk.len() {
        if chunk[i] == b'\n' {
            return Fed {
                found: Some(said(&line)),
                next: i + 1,
                line: blank_line(),
            };
        }
        if line.len < ROOM {
            line.bytes[line.len] = chunk[i];
            line.len += 1;
        } else {
            line.len = TOO_LONG;
        }
    }
    Fed {
        found: None,
        next: from.max(chunk.len()),
        line,
    }
}

// At the end of the input: a line that has begun counts without a newline.
#[tactic(auto, unfolding(crate::specs::Feeds::last_of))]
pub fn last_line(line: LineSoFar) -> Option<Result<Request, NotOfForm>>
    ensures { result ≡ last_of line }
{
    if line.len == 0 {
        None
    } else {
        Some(said(&line))
    }
}
