// E label kind a b: one more term of the table.
#![tactic(auto, using(crate::proofs::Laws::refused), unfolding(crate::specs::Numbers::are_fields, crate::specs::ELine::term_of, crate::specs::ELine::term_order21, crate::specs::ELine::term_limits22, crate::specs::ELine::term_names23, crate::specs::ELine::term_twice24, crate::specs::ELine::term_kind25, crate::specs::ELine::term_refusal, crate::specs::ELine::term_counted, crate::specs::ELine::term_entry, crate::specs::ELine::term_line, crate::specs::Drafts::with_term))]

ghost use Rattle.std.specs.Prelude.{◌≡◌};
ghost use Rattle.terms.specs.Base.{held};
ghost use Rattle.reader.specs.Refused.{number_in};
ghost use Rattle.reader.specs.Numbers.{good, told};
ghost use Rattle.reader.specs.Drafts.{lined_in};
ghost use Rattle.reader.specs.ELine.{term_of, term_order21, term_limits22, term_names23, term_twice24, term_kind25, term_refusal};
ghost use Rattle.reader.specs.ELine.{term_counted, term_entry, term_line};

use crate::draft::{Draft, follows};
use crate::fields::{Fields, up_to_255};
use crate::refusal::Refusal;
use audit::models::names_program;
use audit::tops::top_of;
use model::records::Model;
use terms::entry::add;
use terms::grade::grade_of;
use terms::table::{Entry, Table, find};
use terms::term::{Term, in_limits, parts_below};

pub fn term_line(t: &mut [u64; 512], d: &mut Draft, f: &Option<Fields>) -> Result<(), Refusal>
    ensures { held (lined_in result d.new) t.new ≡ term_line t.old d.old (told f.now) }
{
    let Some(f) = f else {
        return Err(Refusal::Form);
    };
    let x = term_of(f);
    term_refusal(t, d, f, x)?;
    term_entry(t, d, x)
}

fn term_of(f: &Fields) -> Term
    ensures { result ≡ term_of (good f.now) }
{
    Term {
        kind: up_to_255(f.values[1]),
        a: f.values[2],
        b: f.values[3],
    }
}

fn term_refusal(t: &[u64; 512], d: &Draft, f: &Fields, x: Term) -> Result<(), Refusal>
    ensures { number_in result ≡ term_refusal t.now d.now.group d.now.count (good f.now) x }
{
    if f.count != 4 {
        return Err(Refusal::Form);
    }
    let label = f.values[0];
    if term_order21(d.group, d.count, label) {
        return Err(Refusal::Order);
    }
    if term_limits22(t, label, x) {
        return Err(Refusal::Limit);
    }
    if term_names23(label, x) {
        return Err(Refusal::Name);
    }
    if term_twice24(t, d.count, x) {
        return Err(Refusal::Twice);
    }
    if term_kind25(x.kind) {
        return Err(Refusal::Kind);
    }
    Ok(())
}

// After V and E lines alone, and labels rise without a gap.
fn term_order21(group: u8, count: u16, label: u16) -> bool
    ensures { result ≡ term_order21 group count label }
{
    !follows(group, Draft::V, Draft::E) || label != count
}

// A part that is not earlier has no depth here: the line at it is zero.
fn term_limits22(t: &[u64; 512], label: u16, x: Term) -> bool
    ensures { result ≡ term_limits22 t.now label x }
{
    Table::TERMS <= label || !in_limits(x) || Term::DEPTH < grade_of(t, x).depth
}

// A part that is not earlier, or the code of a program past the limit.
fn term_names23(label: u16, x: Term) -> bool
    ensures { result ≡ term_names23 label x }
{
    !parts_below(x, label) || !names_program(x, Model::PROGRAMS)
}

fn term_twice24(t: &[u64; 512], count: u16, x: Term) -> bool
    ensures { result ≡ term_twice24 t.now count x }
{
    find(t, count, x).is_some()
}

// sinit, dinit and nonces cannot be listed.
fn term_kind25(kind: u8) -> bool
    ensures { result ≡ term_kind25 kind }
{
    matches!(kind, 1 | 2 | 7)
}

// The rules of 22 and 24 leave no other outcome than a new term.
fn term_entry(t: &mut [u64; 512], d: &mut Draft, x: Term) -> Result<(), Refusal>
    ensures { held (lined_in result d.new) t.new ≡ term_entry t.old d.old x }
{
    let added = add(t, d.count, x)?;
    match added.entry {
        Entry::New(label) => {
            term_counted(d, label, x);
            Ok(())
        }
        Entry::Listed(_) => Err(Refusal::Twice),
    }
}

// The term at label, the last one now.
fn term_counted(d: &mut Draft, label: u16, x: Term)
    ensures { d.new ≡ term_counted d.old label x }
{
    if label < Table::TERMS {
        d.tops[usize::from(label)] = top_of(&d.tops, x);
        d.count = label + 1;
        d.group = Draft::E;
    }
}
