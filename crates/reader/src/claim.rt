// C kind v m path: the last line, with a path of 1 to 4 programs.
#![tactic(auto, using(crate::proofs::Laws::refused), unfolding(crate::specs::CLine::claim_form20, crate::specs::CLine::path_names23, crate::specs::CLine::claim_names23, crate::specs::CLine::claim_refusal, crate::specs::CLine::claim_of, crate::specs::CLine::claim_line, crate::specs::Drafts::with_claim))]

ghost use Rattle.std.specs.Prelude.{◌≡◌};
ghost use Rattle.reader.specs.Refused.{number_in};
ghost use Rattle.reader.specs.Numbers.{good, told};
ghost use Rattle.reader.specs.Drafts.{lined_in};
ghost use Rattle.reader.specs.CLine.{claim_form20, path_names23, claim_names23, claim_refusal, claim_of, claim_line};

use crate::draft::{Draft, follows};
use crate::fields::{Fields, up_to_255};
use crate::refusal::Refusal;
use model::records::Claim;

pub fn claim_line(d: &mut Draft, f: &Option<Fields>) -> Result<(), Refusal>
    ensures { lined_in result d.new ≡ claim_line d.old (told f.now) }
{
    let Some(f) = f else {
        return Err(Refusal::Form);
    };
    claim_refusal(d, f)?;
    d.claim = claim_of(f);
    d.group = Draft::C;
    Ok(())
}

fn claim_refusal(d: &Draft, f: &Fields) -> Result<(), Refusal>
    ensures { number_in result ≡ claim_refusal d.now (good f.now) }
{
    if claim_form20(f) {
        return Err(Refusal::Form);
    }
    if !follows(d.group, Draft::M, Draft::T) {
        return Err(Refusal::Order);
    }
    if 1 < f.values[0] {
        return Err(Refusal::Limit);
    }
    if claim_names23(d.machine_count, d.programs, f) {
        return Err(Refusal::Name);
    }
    Ok(())
}

// Three numbers, then the path: of 1 to 4 programs.
fn claim_form20(f: &Fields) -> bool
    ensures { result ≡ claim_form20 (good f.now) }
{
    f.count <= 3 || 3 + Claim::PATH < f.count
}

fn claim_names23(machines: u8, programs: u8, f: &Fields) -> bool
    ensures { result ≡ claim_names23 machines programs (good f.now) }
{
    u16::from(programs) <= f.values[1]
        || u16::from(machines) <= f.values[2]
        || path_names23(u16::from(programs), f)
}

// The places past the path are 0, a program that is always listed here.
fn path_names23(programs: u16, f: &Fields) -> bool
    ensures { result ≡ path_names23 programs (good f.now) }
{
    f.values[3..].iter().any(|p| programs <= *p)
}

fn claim_of(f: &Fields) -> Claim
    ensures { result ≡ claim_of (good f.now) }
{
    let v = &f.values;
    Claim {
        kind: up_to_255(v[0]),
        program: up_to_255(v[1]),
        machine: up_to_255(v[2]),
        path: [v[3], v[4], v[5], v[6]].map(up_to_255),
        // its numbers without the first three
        length: f.count.saturating_sub(3),
    }
}
