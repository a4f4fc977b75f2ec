// T agent machine program: one more listed thread; its agent is any number.
#![tactic(auto, using(crate::proofs::Laws::refused), unfolding(crate::specs::Numbers::are_fields, crate::specs::TLine::thread_names23, crate::specs::TLine::thread_refusal, crate::specs::TLine::thread_of, crate::specs::TLine::thread_entry, crate::specs::TLine::thread_line, crate::specs::Drafts::with_thread))]

ghost use Rattle.std.specs.Prelude.{◌≡◌};
ghost use Rattle.reader.specs.Refused.{number_in};
ghost use Rattle.reader.specs.Numbers.{good, told};
ghost use Rattle.reader.specs.Drafts.{lined_in};
ghost use Rattle.reader.specs.TLine.{thread_names23, thread_refusal, thread_of, thread_entry, thread_line};

use crate::draft::{Draft, follows};
use crate::fields::{Fields, up_to_255};
use crate::refusal::Refusal;
use model::records::{Listed, Model, pack_thread};

pub fn thread_line(d: &mut Draft, f: &Option<Fields>) -> Result<(), Refusal>
    ensures { lined_in result d.new ≡ thread_line d.old (told f.now) }
{
    let Some(f) = f else {
        return Err(Refusal::Form);
    };
    thread_refusal(d, f)?;
    thread_entry(d, thread_of(f))
}

fn thread_refusal(d: &Draft, f: &Fields) -> Result<(), Refusal>
    ensures { number_in result ≡ thread_refusal d.now (good f.now) }
{
    if f.count != 3 {
        return Err(Refusal::Form);
    }
    if !follows(d.group, Draft::M, Draft::T) {
        return Err(Refusal::Order);
    }
    if Model::THREADS <= d.thread_count {
        return Err(Refusal::Limit);
    }
    if thread_names23(d.machine_count, d.programs, f.values[1], f.values[2]) {
        return Err(Refusal::Name);
    }
    Ok(())
}

fn thread_names23(machines: u8, programs: u8, machine: u16, program: u16) -> bool
    ensures { result ≡ thread_names23 machines programs machine program }
{
    u16::from(machines) <= machine || u16::from(programs) <= program
}

fn thread_of(f: &Fields) -> Listed
    ensures { result ≡ thread_of (good f.now) }
{
    Listed {
        agent: f.values[0],
        machine: up_to_255(f.values[1]),
        program: up_to_255(f.values[2]),
    }
}

// The rule of 22 leaves no other case than a place for it.
fn thread_entry(d: &mut Draft, t: Listed) -> Result<(), Refusal>
    ensures { lined_in result d.new ≡ thread_entry d.old t }
{
    if Model::THREADS <= d.thread_count {
        return Err(Refusal::Limit);
    }
    d.threads[usize::from(d.thread_count)] = pack_thread(t);
    d.thread_count += 1;
    d.group = Draft::T;
    Ok(())
}
