// The tests by which all codes of a schedule are passed at once.
#![tactic(auto, unfolding(crate::specs::Search::at_last, crate::specs::Search::quiet_at, crate::specs::Search::passes_soon, crate::specs::Search::passes_late, crate::specs::Search::spent_all))]

ghost use Rattle.std.specs.Prelude.{◌≡◌};
ghost use Rattle.search.specs.Search.{at_last, quiet_at, passes_soon, passes_late, spent_all};

use crate::turn::{Task, Walk};
use model::records::Model;
use quiet::depths::{all_fit, all_near};
use quiet::quiet::{Outline, calm, shallow};
use state::code::Code;
use state::control::Control;

// Nothing is entered from a schedule that is one longer than this, and there is budget for all its codes.
fn at_last(left: u32, length: u8, bound: u8) -> bool
    ensures { result ≡ at_last left length bound }
{
    u32::from(Code::ALL) <= left && u16::from(bound) <= u16::from(length) + 2
}

// No code of such a schedule can break the claim, and there is room for what a step makes.
pub fn quiet_at(left: u32, length: u8, k: Task, slots: &[u64; 12], m: &Model, count: u16) -> bool
    ensures { result ≡ quiet_at left length k slots.now m.now.lengths count }
{
    at_last(left, length, k.bound) && calm(slots, m, count, k.outline)
}

// All codes are plain, by the depths of its terms, or of the operands of its next actions.
pub fn passes_soon(
    quiet: bool,
    deep: u8,
    outline: Outline,
    t: &[u64; 512],
    slots: &[u64; 12],
    m: &Model,
) -> bool
    ensures { result ≡ passes_soon quiet deep outline t.now slots.now m.now.actions }
{
    quiet && (shallow(deep, outline) || all_near(t, slots, m, deep))
}

// The same, by what the operands of its next actions come to.
pub fn passes_late(quiet: bool, t: &[u64; 512], s: &Control, m: &Model) -> bool
    ensures { result ≡ passes_late quiet t.now s.now.frame.slots s.now.values s.now.vars m.now.actions }
{
    quiet && all_fit(t, s, m)
}

// All codes of a schedule are passed.
pub fn spent_all(w: Walk) -> Walk
    ensures { result ≡ spent_all w }
{
    Walk {
        left: w.left.saturating_sub(u32::from(Code::ALL)),
        answer: None,
        ..w
    }
}
