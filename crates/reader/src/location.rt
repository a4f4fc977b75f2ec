// L loc machine kind value: one more location, with the label that it holds at the start.
#![tactic(auto, using(crate::proofs::Laws::refused), unfolding(crate::specs::Numbers::are_fields, crate::specs::LLine::location_order21, crate::specs::LLine::location_limits22, crate::specs::LLine::location_names23, crate::specs::LLine::location_kind25, crate::specs::LLine::location_refusal, crate::specs::LLine::location_of, crate::specs::LLine::location_entry, crate::specs::LLine::location_line, crate::specs::Drafts::with_location))]

ghost use Rattle.std.specs.Prelude.{◌≡◌};
ghost use Rattle.reader.specs.Refused.{number_in};
ghost use Rattle.reader.specs.Numbers.{good, told};
ghost use Rattle.reader.specs.Drafts.{lined_in};
ghost use Rattle.reader.specs.LLine.{location_order21, location_limits22, location_names23, location_kind25, location_refusal, location_of, location_entry, location_line};

use crate::draft::{Draft, follows};
use crate::fields::{Fields, up_to_255};
use crate::refusal::Refusal;
use model::fields::is_register;
use model::records::{Location, Model, pack_location};
use terms::line::ground_at;

pub fn location_line(t: &[u64; 512], d: &mut Draft, f: &Option<Fields>) -> Result<(), Refusal>
    ensures { lined_in result d.new ≡ location_line t.now d.old (told f.now) }
{
    let Some(f) = f else {
        return Err(Refusal::Form);
    };
    location_refusal(t, d, f)?;
    location_entry(d, location_of(f))
}

fn location_refusal(t: &[u64; 512], d: &Draft, f: &Fields) -> Result<(), Refusal>
    ensures { number_in result ≡ location_refusal t.now d.now (good f.now) }
{
    if f.count != 4 {
        return Err(Refusal::Form);
    }
    if location_order21(d.group, d.location_count, f.values[0]) {
        return Err(Refusal::Order);
    }
    if location_limits22(f.values[0], f.values[2]) {
        return Err(Refusal::Limit);
    }
    if location_names23(d.machine_count, d.count, f.values[1], f.values[3]) {
        return Err(Refusal::Name);
    }
    if location_kind25(t, up_to_255(f.values[2]), f.values[3]) {
        return Err(Refusal::Kind);
    }
    Ok(())
}

// After an M line, and locations number without a gap.
fn location_order21(group: u8, count: u8, loc: u16) -> bool
    ensures { result ≡ location_order21 group count loc }
{
    !follows(group, Draft::M, Draft::L) || loc != u16::from(count)
}

fn location_limits22(loc: u16, kind: u16) -> bool
    ensures { result ≡ location_limits22 loc kind }
{
    u16::from(Model::LOCATIONS) <= loc || 3 < kind
}

fn location_names23(machines: u8, count: u16, machine: u16, value: u16) -> bool
    ensures { result ≡ location_names23 machines count machine value }
{
    u16::from(machines) <= machine || count <= value
}

// A stored value that is not ground, or a register's other than the one it starts with.
fn location_kind25(t: &[u64; 512], kind: u8, value: u16) -> bool
    ensures { result ≡ location_kind25 t.now kind value }
{
    !ground_at(t, value) || is_register(kind) && value != 1
}

fn location_of(f: &Fields) -> Location
    ensures { result ≡ location_of (good f.now) }
{
    Location {
        machine: up_to_255(f.values[1]),
        kind: up_to_255(f.values[2]),
        value: f.values[3],
    }
}

// The rules of 22 leave no other case than a place for it.
fn location_entry(d: &mut Draft, l: Location) -> Result<(), Refusal>
    ensures { lined_in result d.new ≡ location_entry d.old l }
{
    if Model::LOCATIONS <= d.location_count {
        return Err(Refusal::Limit);
    }
    d.locations[usize::from(d.location_count)] = pack_location(l);
    d.location_count += 1;
    d.group = Draft::L;
    Ok(())
}
