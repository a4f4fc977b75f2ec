// A program op loc x y: one more action, of the last program or of the next one.
#![tactic(auto, using(crate::proofs::Laws::refused), unfolding(crate::specs::Numbers::are_fields, crate::specs::ALine::action_of, crate::specs::ALine::action_order21, crate::specs::ALine::action_limits22, crate::specs::ALine::location_past, crate::specs::ALine::label_bad, crate::specs::ALine::action_names23, crate::specs::ALine::action_refusal, crate::specs::ALine::action_entry, crate::specs::ALine::action_counted, crate::specs::ALine::action_line, crate::specs::Drafts::with_action))]

ghost use Rattle.std.specs.Prelude.{◌≡◌};
ghost use Rattle.terms.specs.Base.{held};
ghost use Rattle.reader.specs.Refused.{number_in};
ghost use Rattle.reader.specs.Numbers.{good, told};
ghost use Rattle.reader.specs.Drafts.{lined_in};
ghost use Rattle.reader.specs.ALine.{action_of, action_order21, action_limits22, location_past, label_bad, action_names23, action_refusal};
ghost use Rattle.reader.specs.ALine.{action_entry, action_line};

use crate::draft::{Draft, follows};
use crate::fields::{Fields, up_to_255};
use crate::refusal::Refusal;
use audit::tops::top_at;
use model::fields::{closes, in_form, names_location};
use model::records::{Action, Model, length_at, pack_action};

pub fn action_line(
    actions: &mut [u64; 512],
    d: &mut Draft,
    f: &Option<Fields>,
) -> Result<(), Refusal>
    ensures { held (lined_in result d.new) actions.new ≡ action_line actions.old d.old (told f.now) }
{
    let Some(f) = f else {
        return Err(Refusal::Form);
    };
    let program = up_to_255(f.values[0]);
    // the actions that the program has so far number the one of this line
    let k = length_at(&d.lengths, program);
    let a = action_of(f);
    action_refusal(d, f, program, k, a)?;
    action_entry(actions, d, program, k, a)
}

fn action_of(f: &Fields) -> Action
    ensures { result ≡ action_of (good f.now) }
{
    Action {
        op: up_to_255(f.values[1]),
        loc: f.values[2],
        x: f.values[3],
        y: f.values[4],
    }
}

fn action_refusal(d: &Draft, f: &Fields, program: u8, k: u8, a: Action) -> Result<(), Refusal>
    ensures { number_in result ≡ action_refusal d.now (good f.now) program k a }
{
    if f.count != 5 {
        return Err(Refusal::Form);
    }
    if action_order21(d, program) {
        return Err(Refusal::Order);
    }
    if action_limits22(program, k, a) {
        return Err(Refusal::Limit);
    }
    if action_names23(d, k, a) {
        return Err(Refusal::Name);
    }
    Ok(())
}

// After V, E and A lines alone; the program is the next one, or the last one while it has not ended.
fn action_order21(d: &Draft, program: u8) -> bool
    ensures { result ≡ action_order21 d.now.group d.now.programs d.now.closed program }
{
    if !follows(d.group, Draft::V, Draft::A) {
        return true;
    }
    program != d.programs && (u16::from(program) + 1 != u16::from(d.programs) || d.closed)
}

// A program past the limit, a 17th action, an unknown op, a function past the limit, an unused field that is not 0.
fn action_limits22(program: u8, k: u8, a: Action) -> bool
    ensures { result ≡ action_limits22 program k a }
{
    Model::PROGRAMS <= program || Model::ACTIONS <= k || !in_form(a)
}

// A location past the limit, a label that is not listed, a variable of this action or of a later one. An unused x or
// y is 0 here, a label that is always listed and asks for no variable.
fn action_names23(d: &Draft, k: u8, a: Action) -> bool
    ensures { result ≡ action_names23 d.now.tops d.now.count k a }
{
    location_past(a, Model::LOCATIONS) || label_bad(d, k, a.x) || label_bad(d, k, a.y)
}

// A location that is not below a number of locations.
pub fn location_past(a: Action, locations: u8) -> bool
    ensures { result ≡ location_past a locations }
{
    names_location(a.op) && u16::from(locations) <= a.loc
}

fn label_bad(d: &Draft, k: u8, label: u16) -> bool
    ensures { result ≡ label_bad d.now.tops d.now.count k label }
{
    d.count <= label || k < top_at(&d.tops, label)
}

// The rules of 22 leave no other case than a place for it.
fn action_entry(
    actions: &mut [u64; 512],
    d: &mut Draft,
    program: u8,
    k: u8,
    a: Action,
) -> Result<(), Refusal>
    ensures { held (lined_in result d.new) actions.new ≡ action_entry actions.old d.old program k a }
{
    if Model::PROGRAMS <= program || Model::ACTIONS <= k {
        return Err(Refusal::Limit);
    }
    let p = usize::from(program);
    actions[p * 16 + usize::from(k)] = pack_action(a);
    d.lengths[p] = k + 1;
    d.programs = program + 1;
    d.closed = closes(a.op);
    d.group = Draft::A;
    Ok(())
}
