// V edition: the first line, and no other.
#![tactic(auto, using(crate::proofs::Laws::refused), unfolding(crate::specs::Numbers::are_fields, crate::specs::VLine::known_edition, crate::specs::VLine::version_order21, crate::specs::VLine::version_refusal, crate::specs::VLine::version_line, crate::specs::Drafts::with_edition))]

ghost use Rattle.std.specs.Prelude.{◌≡◌};
ghost use Rattle.reader.specs.Refused.{number_in};
ghost use Rattle.reader.specs.Numbers.{good, told};
ghost use Rattle.reader.specs.Drafts.{lined_in};
ghost use Rattle.reader.specs.VLine.{known_edition, version_order21, version_refusal, version_line};

use crate::draft::Draft;
use crate::fields::{Fields, up_to_255};
use crate::refusal::Refusal;

pub fn version_line(d: &mut Draft, f: &Option<Fields>) -> Result<(), Refusal>
    ensures { lined_in result d.new ≡ version_line d.old (told f.now) }
{
    let Some(f) = f else {
        return Err(Refusal::Form);
    };
    let edition = up_to_255(f.values[0]);
    version_refusal(d.group, f, edition)?;
    d.group = Draft::V;
    d.edition = edition;
    Ok(())
}

fn version_refusal(group: u8, f: &Fields, edition: u8) -> Result<(), Refusal>
    ensures { number_in result ≡ version_refusal group (good f.now) edition }
{
    if f.count != 1 {
        return Err(Refusal::Form);
    }
    if version_order21(group, edition) {
        return Err(Refusal::Order);
    }
    Ok(())
}

// A second V line, or another number after V.
fn version_order21(group: u8, edition: u8) -> bool
    ensures { result ≡ version_order21 group edition }
{
    group != 0 || !known_edition(edition)
}

fn known_edition(edition: u8) -> bool
    ensures { result ≡ known_edition edition }
{
    edition == 1
}
