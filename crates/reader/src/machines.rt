// M machine boot launch protected: one more machine, with programs that are all listed before it.
#![tactic(auto, using(crate::proofs::Laws::refused), unfolding(crate::specs::Numbers::are_fields, crate::specs::MLine::machine_order21, crate::specs::MLine::machine_limits22, crate::specs::MLine::machine_names23, crate::specs::MLine::machine_refusal, crate::specs::MLine::machine_of, crate::specs::MLine::machine_entry, crate::specs::MLine::machine_line, crate::specs::Drafts::with_machine))]

ghost use Rattle.std.specs.Prelude.{◌≡◌};
ghost use Rattle.reader.specs.Refused.{number_in};
ghost use Rattle.reader.specs.Numbers.{good, told};
ghost use Rattle.reader.specs.Drafts.{lined_in};
ghost use Rattle.reader.specs.MLine.{machine_order21, machine_limits22, machine_names23, machine_refusal, machine_of, machine_entry, machine_line};

use crate::draft::{Draft, follows};
use crate::fields::{Fields, up_to_255};
use crate::refusal::Refusal;
use model::records::{Machine, Model, pack_machine};

pub fn machine_line(d: &mut Draft, f: &Option<Fields>) -> Result<(), Refusal>
    ensures { lined_in result d.new ≡ machine_line d.old (told f.now) }
{
    let Some(f) = f else {
        return Err(Refusal::Form);
    };
    machine_refusal(d, f)?;
    machine_entry(d, machine_of(f))
}

fn machine_refusal(d: &Draft, f: &Fields) -> Result<(), Refusal>
    ensures { number_in result ≡ machine_refusal d.now (good f.now) }
{
    if f.count != 4 {
        return Err(Refusal::Form);
    }
    if machine_order21(d.group, d.machine_count, f.values[0]) {
        return Err(Refusal::Order);
    }
    if machine_limits22(f.values[0], f.values[3]) {
        return Err(Refusal::Limit);
    }
    if machine_names23(d.programs, f.values[1], f.values[2]) {
        return Err(Refusal::Name);
    }
    Ok(())
}

// After an A line, and machines number without a gap.
fn machine_order21(group: u8, count: u8, machine: u16) -> bool
    ensures { result ≡ machine_order21 group count machine }
{
    !follows(group, Draft::A, Draft::M) || machine != u16::from(count)
}

fn machine_limits22(machine: u16, protected: u16) -> bool
    ensures { result ≡ machine_limits22 machine protected }
{
    u16::from(Model::MACHINES) <= machine || 1 < protected
}

fn machine_names23(programs: u8, boot: u16, launch: u16) -> bool
    ensures { result ≡ machine_names23 programs boot launch }
{
    u16::from(programs) <= boot || u16::from(programs) <= launch
}

fn machine_of(f: &Fields) -> Machine
    ensures { result ≡ machine_of (good f.now) }
{
    Machine {
        boot: up_to_255(f.values[1]),
        launch: up_to_255(f.values[2]),
        protected: f.values[3] == 1,
    }
}

// The rules of 22 leave no other case than a place for it.
// kept: shared with locations and threads it would take the list, its count, the record and the group: no plainer.
fn machine_entry(d: &mut Draft, m: Machine) -> Result<(), Refusal>
    ensures { lined_in result d.new ≡ machine_entry d.old m }
{
    if Model::MACHINES <= d.machine_count {
        return Err(Refusal::Limit);
    }
    d.machines[usize::from(d.machine_count)] = pack_machine(m);
    d.machine_count += 1;
    d.group = Draft::M;
    Ok(())
}
