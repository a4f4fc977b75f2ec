// What an action does to the values of locations and to variables, which are plain lists of labels. What it does to locks
// and threads, where no label stands, is said by the crate below.
#![tactic(auto, using(state::proofs::Laws::put_at), unfolding(crate::specs::Effect::stored, crate::specs::Effect::place_of, crate::specs::Effect::with_var, crate::specs::Effect::bound_by, crate::specs::Effect::bound, state::specs::Moves::with_at))]

ghost use Rattle.std.specs.Prelude.{◌≡◌};
ghost use Rattle.rules.specs.Effect.{stored, place_of, with_var, cleared, bound_by, bound};

use model::records::Action;
use state::moves::{is_last, put};
use state::slot::Slot;

// Write stores x, extend stores its chain.
pub fn stored(values: &mut [u16; 32], a: Action, x: u16, r: u16)
    ensures { values.new ≡ stored values.old a x r }
{
    match a.op {
        1 => put(values, usize::from(a.loc), x),
        2 => put(values, usize::from(a.loc), r),
        _ => {}
    }
}

// Where a variable stands in the flat list of all slots' variables.
pub fn place_of(slot: u8, variable: u8) -> u16
    ensures { result ≡ place_of slot variable }
{
    u16::from(slot) * 16 + u16::from(variable)
}

fn with_var(vars: &mut [u16; 192], slot: u8, variable: u8, v: u16)
    ensures { vars.new ≡ with_var vars.old slot variable v }
{
    put(vars, usize::from(place_of(slot, variable)), v);
}

// All variables of a slot are unbound.
pub fn cleared(vars: &mut [u16; 192], slot: u8)
    ensures { vars.new ≡ cleared 0 vars.old slot }
{
    if slot < Slot::SLOTS {
        let from = usize::from(place_of(slot, 0));
        vars[from..from + 16].fill(0);
    }
}

// What the mover binds: an extend's chain is shown, but label 0 is bound.
pub fn bound_by(op: u8, r: u16) -> u16
    ensures { result ≡ bound_by 0 op r }
{
    if op == 2 { 0 } else { r }
}

// The variables after the action: its own bound, or all unbound where the thread has ended.
pub fn bound(lengths: &[u8; 32], vars: &mut [u16; 192], i: u8, s: Slot, v: u16)
    ensures { vars.new ≡ bound 0 lengths.now vars.old i s v }
{
    if is_last(lengths, s) {
        cleared(vars, i);
    } else {
        with_var(vars, i, s.position, v);
    }
}
