// One step of a sound configuration, in place. go makes it once refusals 1 to 7 have let it through; try_step asks those
// first. A refused step leaves table and configuration as they came.
#![tactic(auto, using(crate::proofs::Sizes::is_err_of, state::proofs::Refusals::err_is), unfolding(crate::specs::Step::go_on, crate::specs::Step::step_on))]

ghost use Rattle.std.specs.Prelude.{◌≡◌};
ghost use Rattle.terms.specs.Base.{held};
ghost use Rattle.rules.specs.Made.{layout_of};
ghost use Rattle.rules.specs.Step.{stepped_in, go_on, step_on};

use crate::event::Happening;
use crate::happened::happened;
use crate::made::made;
use crate::work::work;
use model::records::Model;
use state::control::Control;
use state::early::early;
use state::refusal::Refusal;

// A step of a sound configuration.
pub fn try_step(
    t: &mut [u64; 512],
    s: &mut Control,
    m: &Model,
    code: u16,
) -> Result<Happening, Refusal>
    ensures { held (stepped_in result s.new) t.new ≡ step_on t.old s.old (layout_of m.now) m.now.machine_count code }
{
    early(&s.frame, m, code)?;
    go(t, s, m, code)
}

// A step that refusals 1 to 7 let through.
pub fn go(t: &mut [u64; 512], s: &mut Control, m: &Model, code: u16) -> Result<Happening, Refusal>
    ensures { held (stepped_in result s.new) t.new ≡ go_on t.old s.old (layout_of m.now) code }
{
    let l = work(t, s, m, code)?;
    let h = happened(&s.frame, m, code, l);
    made(s, m, code, l);
    Ok(h)
}
