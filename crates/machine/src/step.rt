// One step of any configuration, in place: model and configuration are checked first (11). A refused step leaves table and
// configuration as they came.
#![tactic(auto, unfolding(crate::specs::Step::step_checked))]

ghost use Rattle.std.specs.Prelude.{◌≡◌};
ghost use Rattle.terms.specs.Base.{held};
ghost use Rattle.rules.specs.Step.{stepped_in};
ghost use Rattle.machine.specs.Step.{step_checked};

use audit::controls::sound_control;
use audit::models::sound_model;
use model::records::Model;
use rules::event::Happening;
use rules::inner::try_step;
use state::control::Control;
use state::refusal::Refusal;

// A step for every model, table, configuration and code.
pub fn step(t: &mut [u64; 512], m: &Model, s: &mut Control, code: u16) -> Result<Happening, Refusal>
    ensures { held (stepped_in result s.new) t.new ≡ step_checked t.old m.now s.old code }
{
    if !sound_model(m) || !sound_control(m, t, s) {
        return Err(Refusal::Unsound);
    }
    try_step(t, s, m, code)
}
