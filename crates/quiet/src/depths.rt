// How deep the terms of a table are, and whether the operands of the next actions leave a result within 16.
ghost use Rattle.std.specs.Prelude.{◌≡◌};
ghost use Rattle.quiet.specs.Quiet.{deepest, action_near, far_at, all_near, action_fits, fails_at, all_fit};

use model::records::{Action, Model};
use state::control::{Control, value_at};
use state::early::next_action;
use state::slot::slot_at;
use terms::line::depth_at;
use terms::subst::fits_within;
use terms::table::used;
use terms::term::Term;

// The deepest of the terms from one label up to a count, or what was deepest before.
pub fn deepest(t: &[u64; 512], before: u8, from: u16, count: u16) -> u8
    ensures { result ≡ deepest t.now before from count }
{
    (from..used(count)).fold(before, |deep, i| deep.max(depth_at(t, i)))
}

// The next actions of all live threads have operands that leave a result within 16, whatever term of the table is put for
// each variable.
pub fn all_near(t: &[u64; 512], slots: &[u64; 12], m: &Model, deep: u8) -> bool
    ensures { result ≡ all_near t.now slots.now m.now.actions deep }
{
    !(0..12).any(|i| far_at(t, slots, m, deep, i))
}

// There is a live thread in this slot, and its next action may come to be too deep.
fn far_at(t: &[u64; 512], slots: &[u64; 12], m: &Model, deep: u8, i: u8) -> bool
    ensures { result ≡ far_at t.now slots.now m.now.actions deep i }
{
    let q = slot_at(slots, i);
    q.live && !action_near(t, deep, next_action(&m.actions, q))
}

// The deepest term put for every variable of the operands still leaves a result within 16.
fn action_near(t: &[u64; 512], deep: u8, a: Action) -> bool
    ensures { result ≡ action_near t.now deep a }
{
    let room = u16::from(deep);
    u16::from(depth_at(t, a.x)) + room <= Term::DEPTH
        && u16::from(depth_at(t, a.y)) + room <= Term::DEPTH
}

// The next actions of all live threads have operands of depth 15 at most.
pub fn all_fit(t: &[u64; 512], s: &Control, m: &Model) -> bool
    ensures { result ≡ all_fit t.now s.now.frame.slots s.now.values s.now.vars m.now.actions }
{
    !(0..12).any(|i| fails_at(t, s, m, i))
}

// There is a live thread in this slot, and its next action does not fit.
fn fails_at(t: &[u64; 512], s: &Control, m: &Model, i: u8) -> bool
    ensures { result ≡ fails_at t.now s.now.frame.slots s.now.values s.now.vars m.now.actions i }
{
    let q = slot_at(&s.frame.slots, i);
    q.live && !action_fits(t, s, u16::from(i) * 16, next_action(&m.actions, q))
}

// The operands of an action, and the value of its location, which an extend takes too.
fn action_fits(t: &[u64; 512], s: &Control, base: u16, a: Action) -> bool
    ensures { result ≡ action_fits t.now s.now.values s.now.vars base a }
{
    fits_within(t, &s.vars, base, a.x, 15)
        && fits_within(t, &s.vars, base, a.y, 15)
        && (a.op != 2 || depth_at(t, value_at(&s.values, a.loc)) <= 15)
}
