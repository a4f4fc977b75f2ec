// The configuration after a step whose work is done, made in place: first its slots, then all else, which goes by the slots
// as they were. The table has then the terms that the work left in it.
#![tactic(auto, using(crate::proofs::Parts::made_parts), unfolding(crate::specs::Parts::slots_advanced, crate::specs::Parts::slots_handed, crate::specs::Parts::slots_made, crate::specs::Parts::moved, crate::specs::Parts::started, crate::specs::Parts::rest_advanced, crate::specs::Parts::rest_handed, crate::specs::Parts::rest_reset, crate::specs::Parts::rest_made))]

ghost use Rattle.std.specs.Prelude.{◌≡◌};
ghost use Rattle.rules.specs.Made.{layout_of, control_after};
ghost use Rattle.rules.specs.Parts.{counters_of, with_counters, rest_of, rest_after, with_rest, control_with, slots_advanced, slots_handed, slots_made, moved, started, rest_advanced, rest_handed, rest_reset, rest_made};

use crate::effect::{bound, bound_by, cleared, stored};
use crate::launch::values_launched;
use crate::reset::{values_reset, vars_reset};
use crate::work::Labels;
use model::records::{Model, machine_at};
use state::code::{Way, way_of};
use state::control::{Control, Frame, one_more};
use state::early::next_action;
use state::launch::{locks_launched, thread_launched};
use state::moves::{jumped, locked, moved_on, nonce_after, with_slot};
use state::reset::{locks_reset, slots_booted};
use state::slot::slot_at;

pub fn made(s: &mut Control, m: &Model, code: u16, l: Labels)
    ensures { s.new ≡ control_after s.old (layout_of m.now) code l }
{
    let mut slots = s.frame.slots;
    slots_made(&mut slots, m, s.frame.serial, code, l.program);
    rest_made(s, m, code, l);
    s.frame.slots = slots;
}

// The slots after the step.
pub fn slots_made(slots: &mut [u64; 12], m: &Model, serial: u16, code: u16, program: u8)
    ensures { slots.new ≡ slots_made slots.old m.now.actions m.now.lengths m.now.machines serial code program }
{
    match way_of(code) {
        Way::Nothing => {}
        Way::Advance(i) => slots_advanced(slots, m, serial, i, program),
        Way::Hand(i, j) => slots_handed(slots, m, i, j),
        Way::Reset(k) => slots_booted(slots, machine_at(&m.machines, k), k, serial),
    }
}

fn slots_advanced(slots: &mut [u64; 12], m: &Model, serial: u16, i: u8, program: u8)
    ensures { slots.new ≡ slots_advanced slots.old m.now.actions m.now.lengths m.now.machines serial i program }
{
    let q = slot_at(slots, i);
    let after = match next_action(&m.actions, q).op {
        19 => jumped(q, program),
        20 => thread_launched(&m.machines, q, serial),
        _ => moved_on(&m.lengths, q),
    };
    with_slot(slots, i, after);
}

// Both have made their action.
fn slots_handed(slots: &mut [u64; 12], m: &Model, i: u8, j: u8)
    ensures { slots.new ≡ slots_handed slots.old m.now.lengths i j }
{
    let q = slot_at(slots, i);
    let r = slot_at(slots, j);
    with_slot(slots, i, moved_on(&m.lengths, q));
    with_slot(slots, j, moved_on(&m.lengths, r));
}

// All but the slots, which must be those before the step.
pub fn rest_made(s: &mut Control, m: &Model, code: u16, l: Labels)
    ensures { s.new ≡ control_with s.old.frame.slots (rest_made s.old.frame.slots (rest_of s.old) (layout_of m.now) code l) l.count }
{
    s.count = l.count;
    match way_of(code) {
        Way::Nothing => {}
        Way::Advance(i) => rest_advanced(s, m, i, l),
        Way::Hand(i, j) => rest_handed(s, m, i, j, l.x),
        Way::Reset(k) => rest_reset(s, m, k),
    }
}

fn rest_advanced(s: &mut Control, m: &Model, i: u8, l: Labels)
    ensures { s.new ≡ with_rest s.old (rest_advanced s.old.frame.slots (rest_of s.old) m.now.actions m.now.lengths m.now.locations i l) }
{
    let q = slot_at(&s.frame.slots, i);
    let a = next_action(&m.actions, q);
    match a.op {
        19 => {
            // the thread goes on at that program's start, no variables bound
            cleared(&mut s.vars, i);
            locked(&mut s.frame.locks, a, q.serial);
            moved(&mut s.frame, a.op);
        }
        20 => {
            // a new thread in its slot holds the machine's dynamic registers
            locks_launched(&mut s.frame.locks, &m.locations, q.machine, s.frame.serial);
            values_launched(&mut s.values, &m.locations, q.machine);
            cleared(&mut s.vars, i);
            started(&mut s.frame);
        }
        _ => {
            locked(&mut s.frame.locks, a, q.serial);
            stored(&mut s.values, a, l.x, l.result);
            bound(&m.lengths, &mut s.vars, i, q, bound_by(a.op, l.result));
            moved(&mut s.frame, a.op);
        }
    }
}

// One step more; new takes a number.
fn moved(f: &mut Frame, op: u8)
    ensures { f.new ≡ with_counters f.old (moved (counters_of f.old) op) }
{
    f.steps = one_more(f.steps);
    f.nonce = nonce_after(op, f.nonce);
}

// One step more, by which a thread was made.
fn started(f: &mut Frame)
    ensures { f.new ≡ with_counters f.old (started (counters_of f.old)) }
{
    f.steps = one_more(f.steps);
    f.serial = one_more(f.serial);
}

// The sender binds label 0, the receiver the value.
fn rest_handed(s: &mut Control, m: &Model, i: u8, j: u8, x: u16)
    ensures { s.new ≡ with_rest s.old (rest_after (rest_of s.old) (rest_handed s.old.frame.slots (counters_of s.old.frame) s.old.vars m.now.lengths i j x)) }
{
    let q = slot_at(&s.frame.slots, i);
    let r = slot_at(&s.frame.slots, j);
    bound(&m.lengths, &mut s.vars, i, q, 0);
    bound(&m.lengths, &mut s.vars, j, r, x);
    moved(&mut s.frame, 5);
}

fn rest_reset(s: &mut Control, m: &Model, k: u8)
    ensures { s.new ≡ with_rest s.old (rest_reset s.old.frame.slots (rest_of s.old) m.now.machines m.now.locations k) }
{
    let protected = machine_at(&m.machines, k).protected;
    locks_reset(
        &mut s.frame.locks,
        &m.locations,
        k,
        protected,
        s.frame.serial,
    );
    values_reset(&mut s.values, &m.locations, k);
    vars_reset(&mut s.vars, &s.frame.slots, k);
    started(&mut s.frame);
}
