// The term table: 512 lines that the caller lends, of which the first count hold terms and the others are zero. A
// label is a line's place.
// kept: the lines and a count are two parameters, since one table is lent to configurations that each have a count of it
ghost use Rattle.std.specs.Prelude.{◌≡◌};
ghost use Rattle.terms.specs.Table.{label_of, fixed_line, fresh_table, Used, Free, find_line, find_term, cut_to};

use crate::grade::grade_of;
use crate::line::{Grade, pack};
use crate::term::{Term, after_parts};

#[derive(Drop)]
pub struct Table {
    pub lines: [u64; 512],
    pub count: u16,
}

// Why a term cannot be entered: it is deeper than 16, or the table is full.
#[derive(Clone, Copy, PartialEq, Eq)]
pub enum Size {
    Deep,
    Full,
}

// The label of a term that was added: it was listed before, or it is new.
#[derive(Clone, Copy, PartialEq, Eq)]
pub enum Entry {
    Listed(u16),
    New(u16),
}

impl Entry {
    // The label, old or new.
    pub fn label(self) -> u16
        ensures { result ≡ label_of self }
    {
        match self {
            Entry::Listed(label) | Entry::New(label) => label,
        }
    }
}

// A term's entry, and the count of terms after it.
#[derive(Clone, Copy)]
pub struct Added {
    pub entry: Entry,
    pub count: u16,
}

impl Table {
    // A table holds at most this many terms.
    pub const TERMS: u16 = 512;
    // The fixed terms: labels 0, 1, 2 are number 0, sinit and dinit.
    pub const FIXED: u16 = 3;

    // The fixed terms alone.
    pub fn fresh() -> Table
        ensures { result ≡ fresh_table }
    {
        let mut lines = [0u64; 512];
        lines[0] = fixed_line(0);
        lines[1] = fixed_line(1);
        lines[2] = fixed_line(2);
        Table {
            lines,
            count: Table::FIXED,
        }
    }
}

// The line of a fixed term: label 0 is of kind 0, 1 of kind 1, 2 of kind 2.
pub fn fixed_line(label: u8) -> u64
    ensures { result ≡ fixed_line label }
{
    pack(
        Term {
            kind: label,
            a: 0,
            b: 0,
        },
        Grade {
            depth: 1,
            grounded: true,
        },
    )
}

// How many lines hold terms, for any count.
// kept: this and free_entries carry a bound beside their value, for their callers
pub fn used(count: u16) -> u16
    ensures { Used count result }
{
    count.min(Table::TERMS)
}

// How many terms more the table can take.
pub fn free_entries(count: u16) -> u16
    ensures { Free count result }
{
    Table::TERMS.saturating_sub(count)
}

// The first line that is n, from a label on.
pub fn find_line(t: &[u64; 512], from: u16, count: u16, n: u64) -> Option<u16>
    ensures { result ≡ find_line t.now from count n }
{
    for i in from..used(count) {
        if t[usize::from(i)] == n {
            return Some(i);
        }
    }
    None
}

// The label of a term, looked for behind its parts.
pub fn find(t: &[u64; 512], count: u16, x: Term) -> Option<u16>
    ensures { result ≡ find_term t.now count x }
{
    let g = grade_of(t, x);
    if Term::DEPTH < g.depth {
        return None;
    }
    find_line(t, after_parts(x), count, pack(x, g))
}

// Back to an earlier count: the lines between the two counts are zero again.
pub fn cut(t: &mut [u64; 512], earlier: u16, count: u16)
    ensures { t.new ≡ cut_to t.old earlier count }
{
    for i in earlier..used(count) {
        t[usize::from(i)] = 0;
    }
}
