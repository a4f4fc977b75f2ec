// The R lines at the end of an input, the longest run of them: one decimal up to 65,535 each. All are judged before
// the model is read, and the first bad one is named.
ghost use Rattle.std.specs.Prelude.{◌≡◌};
ghost use Rattle.lines.specs.Codes.{code_in, next_code, judged, last_codes, line_read, code_read};

use crate::field::{cut_line, front_of, opens_with, read_field, rest_of};
use crate::tail::{Fault, Tail, tail_of};

// The code of an R line.
#[derive(Clone, Copy)]
pub struct Code {
    pub code: u16,
    // where the next line starts
    pub next: usize,
}

impl Code {
    // A code is at most this.
    pub const MOST: u32 = 65535;
}

// A line that is no R line of good form.
#[derive(Clone, Copy)]
pub struct BadLine;

// The first line of a rest of R lines; none where no byte is left.
pub fn next_code(rest: &[u8]) -> Result<Option<Code>, BadLine>
    ensures { code_read result ≡ next_code rest.now }
{
    if rest.is_empty() {
        return Ok(None);
    }
    let n = cut_line(rest).ok_or(BadLine)?;
    let code = code_in(front_of(rest, n), n + 1)?;
    Ok(Some(code))
}

// An R line without its LF: the rest after the letter's tab is handed on.
fn code_in(line: &[u8], next: usize) -> Result<Code, BadLine>
    ensures { line_read result ≡ code_in line.now next }
{
    if !opens_with(line, b'R') {
        return Err(BadLine);
    }
    let field = read_field(rest_of(line, 2), Code::MOST).ok_or(BadLine)?;
    match field.next {
        None => Ok(Code {
            code: field.number as u16,
            next,
        }),
        Some(_) => Err(BadLine),
    }
}

// The place of the first line of a rest, from 0, that is no R line of good form.
fn first_bad_line(rest: &[u8]) -> Option<usize>
    ensures { result ≡ judged rest.now }
{
    let mut at = 0;
    let mut i = 0;
    loop {
        match next_code(rest_of(rest, at)) {
            Ok(Some(code)) => {
                at += code.next;
                i += 1;
            }
            Ok(None) => return None,
            Err(BadLine) => return Some(i),
        }
    }
}

// Where the R lines at the end start, and the model before them ends: each has good form.
pub fn last_codes(s: &[u8]) -> Result<usize, Fault>
    ensures { result ≡ last_codes s.now }
{
    if Tail::BYTES < s.len() {
        return Err(Fault::Long);
    }
    let t = tail_of(s, b'R');
    let start = t.start;
    match first_bad_line(rest_of(s, start)) {
        None => Ok(start),
        Some(i) => {
            let line = t.before + i + 1;
            Err(Fault::Bad(line as u32))
        }
    }
}
