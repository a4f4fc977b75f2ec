// Late launch, values: the machine's dynamic registers become dinit, all others keep theirs.
#![tactic(auto, unfolding(crate::specs::Restart::value_launched))]

ghost use Rattle.std.specs.Prelude.{◌≡◌};
ghost use Rattle.rules.specs.Restart.{value_launched, values_launched};

use state::launch::is_dynamic;

// The dynamic registers of the machine become dinit.
pub fn values_launched(values: &mut [u16; 32], locations: &[u32; 32], m: u8)
    ensures { values.new ≡ values_launched 2 values.old locations.now m }
{
    // no zip: a proof knows nothing of what an iter_mut under a zip wrote
    for (i, value) in values.iter_mut().enumerate() {
        *value = value_launched(*value, locations[i], m);
    }
}

// dinit is label 2.
fn value_launched(value: u16, location: u32, m: u8) -> u16
    ensures { result ≡ value_launched 2 m value location }
{
    if is_dynamic(location, m) { 2 } else { value }
}
