// Reset, values and variables: RAM of the machine becomes label 0, its registers sinit, disk stays. The variables of the
// threads that ended are unbound.
#![tactic(auto, unfolding(crate::specs::Restart::reset_value, crate::specs::Restart::value_reset))]

ghost use Rattle.std.specs.Prelude.{◌≡◌};
ghost use Rattle.rules.specs.Restart.{reset_value, value_reset, values_reset, vars_reset};

use crate::effect::cleared;
use model::records::location_in;
use state::reset::is_on;

// The variables of a slot whose thread has ended are unbound.
pub fn vars_reset(vars: &mut [u16; 192], slots: &[u64; 12], m: u8)
    ensures { vars.new ≡ vars_reset 0 vars.old slots.now m }
{
    for (i, slot) in slots.iter().enumerate() {
        if is_on(*slot, m) {
            cleared(vars, i as u8);
        }
    }
}

pub fn values_reset(values: &mut [u16; 32], locations: &[u32; 32], m: u8)
    ensures { values.new ≡ values_reset 0 1 values.old locations.now m }
{
    // no zip: a proof knows nothing of what an iter_mut under a zip wrote
    for (i, value) in values.iter_mut().enumerate() {
        *value = value_reset(*value, locations[i], m);
    }
}

fn value_reset(value: u16, location: u32, m: u8) -> u16
    ensures { result ≡ value_reset 0 1 m value location }
{
    let l = location_in(location);
    if l.machine != m {
        return value;
    }
    reset_value(l.kind, value)
}

// By kind of location: RAM 0, disk as it is, static and dynamic registers sinit, which is label 1.
fn reset_value(kind: u8, value: u16) -> u16
    ensures { result ≡ reset_value 0 1 kind value }
{
    match kind {
        0 => 0,
        2 | 3 => 1,
        _ => value,
    }
}
