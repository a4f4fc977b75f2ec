// Whether all codes of a configuration are plain: it must be calm, and nothing may come to be too deep. Depths are asked
// up to three times, the cheapest first: the deepest term and the deepest listed one (shallow), the deepest term and the
// operands of the next actions (all_near, in depths), and what these operands come to (all_fit, in depths).
ghost use Rattle.std.specs.Prelude.{◌≡◌};
ghost use Rattle.quiet.specs.Quiet.{calm, shallow};

use crate::ends::nobody_stands;
use model::records::Model;
use terms::term::Term;

// The outline of a model: the claim's program, how many terms are listed, and how deep the deepest of them is.
#[derive(Clone, Copy)]
pub struct Outline {
    pub program: u8,
    pub count: u16,
    pub deep: u8,
}

// Nobody stands before the last action, and a step finds room: it makes at most one term for each that is listed, and its
// result.
pub fn calm(slots: &[u64; 12], m: &Model, count: u16, outline: Outline) -> bool
    ensures { result ≡ calm slots.now m.now.lengths count outline }
{
    u32::from(count) + u32::from(outline.count) <= 511 && nobody_stands(slots, m, outline.program)
}

// The deepest term put for every variable of the deepest listed one still leaves a result within 16.
pub fn shallow(deep: u8, outline: Outline) -> bool
    ensures { result ≡ shallow deep outline }
{
    u16::from(deep) + u16::from(outline.deep) <= Term::DEPTH
}
