// The first reading: line after line, the first bad line with its lowest number, as far as earlier lines tell.
#![tactic(auto, using(crate::proofs::Laws::refused, crate::proofs::Laws::bad_line), unfolding(crate::specs::FirstReading::one_line, crate::specs::FirstReading::next_line, crate::specs::FirstReading::whole_read))]

ghost use Rattle.std.specs.Prelude.{◌≡◌, replicate};
ghost use Rattle.terms.specs.Table.{fresh_table};
ghost use Rattle.reader.specs.Drafts.{fresh_draft, lined_in};
ghost use Rattle.reader.specs.FirstReading.{kept, one_line, next_line, read_in, whole_read, reading_on};

use crate::action::action_line;
use crate::claim::claim_line;
use crate::draft::Draft;
use crate::fields::fields_of;
use crate::location::location_line;
use crate::machines::machine_line;
use crate::refusal::{Fault, Refusal};
use crate::term::term_line;
use crate::thread::thread_line;
use crate::version::version_line;
use lines::field::{byte_at, cut_line, front_of, rest_of};
use lines::tail::{Tail, width};
use terms::table::Table;

// What the lines read so far have told: the two tables, and the draft beside them.
#[derive(Drop)]
pub struct Reading {
    pub terms: [u64; 512],
    pub actions: [u64; 512],
    pub draft: Draft,
}

impl Reading {
    // A file has at most this many bytes.
    pub const BYTES: usize = Tail::BYTES;

    // Before the first line: the fixed terms alone.
    pub fn fresh() -> Reading
        ensures terms { result.terms ≡ fresh_table.lines }
        ensures actions { result.actions ≡ replicate 512 0 }
        ensures draft { result.draft ≡ fresh_draft }
    {
        let terms = Table::fresh().lines;
        Reading {
            terms,
            actions: [0; 512],
            draft: Draft::fresh(),
        }
    }
}

// One line, without its LF, by its record letter.
pub fn one_line(r: &mut Reading, line: &[u8]) -> Result<(), Refusal>
    ensures { kept (lined_in result r.new.draft) r.new.terms r.new.actions
        ≡ one_line r.old.terms r.old.actions r.old.draft line.now }
{
    let f = fields_of(line);
    match byte_at(line, 0) {
        b'V' => version_line(&mut r.draft, &f),
        b'E' => term_line(&mut r.terms, &mut r.draft, &f),
        b'A' => action_line(&mut r.actions, &mut r.draft, &f),
        b'M' => machine_line(&mut r.draft, &f),
        b'L' => location_line(&r.terms, &mut r.draft, &f),
        b'T' => thread_line(&mut r.draft, &f),
        b'C' => claim_line(&mut r.draft, &f),
        _ => Err(Refusal::Form),
    }
}

// The first line of a rest of the file. Bytes with no LF behind them are a line of bad form.
fn next_line(r: &mut Reading, rest: &[u8]) -> Result<(), Refusal>
    ensures { kept (lined_in result r.new.draft) r.new.terms r.new.actions
        ≡ next_line r.old.terms r.old.actions r.old.draft rest.now }
{
    match cut_line(rest) {
        Some(n) => one_line(r, front_of(rest, n)),
        None => Err(Refusal::Form),
    }
}

// Goes on from what was read before, a fresh reading before the first line.
pub fn first_reading(file: &[u8], r: &mut Reading) -> Result<(), Fault>
    ensures { kept (read_in result r.new.draft) r.new.terms r.new.actions
        ≡ reading_on file.now r.old.terms r.old.actions r.old.draft }
{
    if Reading::BYTES < file.len() {
        return Err(Fault {
            refusal: Refusal::Length,
            line: 0,
        });
    }
    let mut rest = file;
    let mut line = 1;
    // kept: where the next line starts is known once this one is measured
    while !rest.is_empty() {
        if let Err(refusal) = next_line(r, rest) {
            return Err(Fault { refusal, line });
        }
        rest = rest_of(rest, width(rest));
        line += 1;
    }
    whole(line, &r.draft)
}

// After the last line: there must have been a C.
fn whole(line: u32, d: &Draft) -> Result<(), Fault>
    ensures { read_in result d.now ≡ whole_read line d.now }
{
    if d.group != Draft::C {
        return Err(Fault {
            refusal: Refusal::Order,
            line,
        });
    }
    Ok(())
}
