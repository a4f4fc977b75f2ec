// The end of an input: where its last line starts, and the longest run of lines at its end whose first byte is one
// letter. Bytes after the last LF are one more line.
ghost use Rattle.std.specs.Prelude.{◌≡◌};
ghost use Rattle.lines.specs.Line.{Width};
ghost use Rattle.lines.specs.Tail.{tail, tail_of, tail_with, fault_number, fault_line};

use crate::field::{byte_at, cut_line, rest_of};

// Why the end of an input is refused.
#[derive(Clone, Copy)]
pub enum Fault {
    // a line that is missing or bad, by its number
    Bad(u32),
    // the whole input is too long
    Long,
}

impl Fault {
    // The number of the refusal.
    pub fn number(self) -> u8
        ensures { result ≡ fault_number self }
    {
        match self {
            Fault::Bad(_) => 20,
            Fault::Long => 26,
        }
    }

    // The line that the refusal names, 0 for the whole input.
    pub fn line(self) -> u32
        ensures { result ≡ fault_line self }
    {
        match self {
            Fault::Bad(line) => line,
            Fault::Long => 0,
        }
    }
}

#[derive(Clone, Copy)]
pub struct Tail {
    // how many lines there are
    pub lines: usize,
    // where the last of them starts; 0 in an empty input
    pub last: usize,
    // where the run starts: past the end where it has no line
    pub start: usize,
    // how many lines stand before the run
    pub before: usize,
}

impl Tail {
    // A whole input has at most this many bytes.
    pub const BYTES: usize = 65536;

    fn empty() -> Tail
        ensures { result ≡ tail 0 0 0 0 }
    {
        Tail {
            lines: 0,
            last: 0,
            start: 0,
            before: 0,
        }
    }
}

// How many bytes the first line of a rest has, its LF too.
pub fn width(rest: &[u8]) -> usize
    ensures { Width rest.now result }
{
    match cut_line(rest) {
        Some(n) => n + 1,
        None => rest.len(),
    }
}

// One line more, from at up to next: lines now in all.
fn with_line(t: Tail, at: usize, next: usize, lines: usize, same: bool) -> Tail
    ensures { result ≡ tail_with t at next lines same }
{
    if same {
        Tail {
            lines,
            last: at,
            ..t
        }
    } else {
        Tail {
            lines,
            last: at,
            start: next,
            before: lines,
        }
    }
}

pub fn tail_of(s: &[u8], letter: u8) -> Tail
    ensures { result ≡ tail_of letter s.now }
{
    let mut t = Tail::empty();
    let mut at = 0;
    let mut lines = 0;
    // kept: where a line starts is known once the one before it is measured
    while at < s.len() {
        let next = at + width(rest_of(s, at));
        let same = byte_at(s, at) == letter;
        lines += 1;
        t = with_line(t, at, next, lines, same);
        at = next;
    }
    t
}
