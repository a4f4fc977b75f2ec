// The second reading, of what only later lines tell: code terms and the locations of actions (23), equal programs
// (24, at the later one's last action), the kinds of the locations (25); by line, then by number.
#![tactic(auto, using(crate::proofs::Laws::refused), unfolding(crate::specs::SecondReading::first_bad_code, crate::specs::SecondReading::line_of_label, crate::specs::SecondReading::program_twice24, crate::specs::SecondReading::action_second, crate::specs::SecondReading::program_reading, crate::specs::SecondReading::programs_reading, crate::specs::SecondReading::second_reading))]

ghost use Rattle.std.specs.Prelude.{◌≡◌};
ghost use Rattle.reader.specs.Refused.{number_in};
ghost use Rattle.reader.specs.SecondReading.{below, first_bad_code, LabelLine, program_twice24, action_second, within_in};
ghost use Rattle.reader.specs.SecondReading.{program_reading, programs_reading, second_in, second_reading};

use crate::action::location_past;
use crate::draft::Draft;
use crate::first::Reading;
use crate::refusal::{Fault, Refusal};
use audit::models::names_program;
use audit::programs::new_program;
use model::fields::kind_fits;
use model::records::{action_at, length_at, location_at};
use terms::line::term_at;
use terms::table::Table;

// E lines stand from line 2 on, one for each listed label, and A lines right after them.
pub fn second_reading(r: &Reading) -> Result<(), Fault>
    ensures { second_in result ≡ second_reading r.now.terms r.now.actions r.now.draft }
{
    let d = &r.draft;
    if let Some(label) = first_bad_code(&r.terms, d.count, d.programs) {
        return Err(Fault {
            refusal: Refusal::Name,
            line: line_of_label(label),
        });
    }
    programs_reading(&r.actions, d)
}

fn line_of_label(label: u16) -> u32
    ensures { LabelLine label result }
{
    u32::from(label.saturating_sub(Table::FIXED)) + 2
}

// The first label that is the code of a program not listed.
fn first_bad_code(lines: &[u64; 512], count: u16, programs: u8) -> Option<u16>
    ensures { result ≡ below (first_bad_code lines.now count programs) count }
{
    (0..count).find(|label| !names_program(term_at(lines, *label), programs))
}

// Program after program; the first one's actions stand right after the E lines.
fn programs_reading(actions: &[u64; 512], d: &Draft) -> Result<(), Fault>
    ensures { second_in result ≡ programs_reading actions.now d.now }
{
    let mut line = line_of_label(d.count);
    for p in 0..d.programs {
        if let Err(place) = program_reading(actions, d, p) {
            return Err(Fault {
                refusal: place.refusal,
                line: line + u32::from(place.at),
            });
        }
        line += u32::from(length_at(&d.lengths, p));
    }
    Ok(())
}

// A refusal at an action of one program.
#[derive(Clone, Copy)]
struct Place {
    refusal: Refusal,
    at: u8,
}

fn program_reading(actions: &[u64; 512], d: &Draft, p: u8) -> Result<(), Place>
    ensures { within_in result ≡ program_reading actions.now d.now.lengths d.now.locations d.now.location_count p }
{
    for k in 0..length_at(&d.lengths, p) {
        if let Err(refusal) = action_second(actions, d, p, k) {
            return Err(Place { refusal, at: k });
        }
    }
    Ok(())
}

fn action_second(actions: &[u64; 512], d: &Draft, p: u8, k: u8) -> Result<(), Refusal>
    ensures { number_in result ≡ action_second actions.now d.now.lengths d.now.locations d.now.location_count p k }
{
    let a = action_at(actions, p, k);
    if location_past(a, d.location_count) {
        return Err(Refusal::Name);
    }
    if program_twice24(actions, d, p, k) {
        return Err(Refusal::Twice);
    }
    if !kind_fits(a.op, location_at(&d.locations, a.loc).kind) {
        return Err(Refusal::Kind);
    }
    Ok(())
}

// The last action of a program, and an earlier program has the same actions.
fn program_twice24(actions: &[u64; 512], d: &Draft, p: u8, k: u8) -> bool
    ensures { result ≡ program_twice24 actions.now d.now.lengths p k }
{
    u16::from(k) + 1 == u16::from(length_at(&d.lengths, p)) && !new_program(actions, &d.lengths, p)
}
