// Refusals 1 to 7: what can be said of a code by reading threads, locks and the model. The refusal is the first whose
// reason holds.
#![tactic(auto, unfolding(crate::specs::Early::next_action, crate::specs::Early::is_elsewhere, crate::specs::Early::locked_out, crate::specs::Early::refusal_of, crate::specs::Early::early_of, crate::specs::Early::thread_or, crate::specs::Early::steps_or))]

ghost use Rattle.std.specs.Prelude.{◌≡◌};
ghost use Rattle.state.specs.declared.code.Way.TheVariants as Ways;
ghost use Rattle.state.specs.Slot.{slot_at};
ghost use Rattle.state.specs.Refusal.{refused_in};
ghost use Rattle.state.specs.Early.{sight_of, thread_or, steps_or, next_action, is_elsewhere, locked_out, refusal_of, early_of};

use crate::code::{Way, way_of};
use crate::control::{Control, Frame};
use crate::lock::{bars, is_held_by, lock_at};
use crate::refusal::Refusal;
use crate::slot::{Slot, slot_at};
use model::fields::names_location;
use model::records::{Action, Model, action_at, location_at};

pub fn early(f: &Frame, m: &Model, code: u16) -> Result<(), Refusal>
    ensures { refused_in result ≡ early_of (sight_of f.now m.now.actions m.now.locations m.now.machine_count) code }
{
    match way_of(code) {
        Way::Nothing => Err(Refusal::NoCode),
        Way::Advance(i) => early_advance(f, m, i),
        Way::Hand(i, j) => early_hand(f, m, i, j),
        Way::Reset(k) => early_reset(f, m, k),
    }
}

fn early_advance(f: &Frame, m: &Model, i: u8) -> Result<(), Refusal>
    ensures { refused_in result ≡ refusal_of (sight_of f.now m.now.actions m.now.locations m.now.machine_count) (Ways.Advance i) }
{
    let s = live_thread(f, i)?;
    steps_left(f)?;
    let a = next_action(&m.actions, s);
    if a.op == 5 || a.op == 6 {
        return Err(Refusal::OtherAction);
    }
    if !names_location(a.op) {
        return Ok(());
    }
    if elsewhere(&m.locations, a.loc, s.machine) {
        return Err(Refusal::Elsewhere);
    }
    if locked_out(&f.locks, a, s.serial) {
        return Err(Refusal::LockedOut);
    }
    Ok(())
}

fn early_hand(f: &Frame, m: &Model, i: u8, j: u8) -> Result<(), Refusal>
    ensures { refused_in result ≡ refusal_of (sight_of f.now m.now.actions m.now.locations m.now.machine_count) (Ways.Hand i j) }
{
    let s = live_thread(f, i)?;
    let r = live_thread(f, j)?;
    if i == j {
        return Err(Refusal::OneSlot);
    }
    steps_left(f)?;
    if next_action(&m.actions, s).op != 5 || next_action(&m.actions, r).op != 6 {
        return Err(Refusal::OtherAction);
    }
    Ok(())
}

fn early_reset(f: &Frame, m: &Model, k: u8) -> Result<(), Refusal>
    ensures { refused_in result ≡ refusal_of (sight_of f.now m.now.actions m.now.locations m.now.machine_count) (Ways.Reset k) }
{
    if m.machine_count <= k {
        return Err(Refusal::Nobody);
    }
    steps_left(f)
}

// The thread in a slot.
fn live_thread(f: &Frame, i: u8) -> Result<Slot, Refusal>
    ensures { result ≡ thread_or (slot_at f.now.slots i) }
{
    let s = slot_at(&f.slots, i);
    if s.live { Ok(s) } else { Err(Refusal::Nobody) }
}

// No schedule has more than so many steps.
fn steps_left(f: &Frame) -> Result<(), Refusal>
    ensures { result ≡ steps_or f.now.steps }
{
    if f.steps < Control::STEPS {
        Ok(())
    } else {
        Err(Refusal::StepsMade)
    }
}

// The action that a thread stands before.
pub fn next_action(actions: &[u64; 512], s: Slot) -> Action
    ensures { result ≡ next_action actions.now s }
{
    action_at(actions, s.program, s.position)
}

fn elsewhere(locations: &[u32; 32], loc: u16, machine: u8) -> bool
    ensures { result ≡ is_elsewhere locations.now loc machine }
{
    location_at(locations, loc).machine != machine
}

// Reading is never barred; write, extend and lock need the location free or their own, unlock needs it their own.
fn locked_out(locks: &[u32; 32], a: Action, serial: u16) -> bool
    ensures { result ≡ locked_out locks.now a serial }
{
    let l = lock_at(locks, a.loc);
    match a.op {
        0 => false,
        4 => !is_held_by(l, serial),
        _ => bars(l, serial),
    }
}
