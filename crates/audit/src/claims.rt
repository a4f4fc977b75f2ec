// The soundness of a model's claim: a known kind, and a program, a machine and a path of 1 to 4 programs that are listed.
#![tactic(auto, unfolding(crate::specs::Claims::claim_sound, crate::specs::Claims::path_program))]

ghost use Rattle.std.specs.Prelude.{◌≡◌};
ghost use Rattle.audit.specs.Claims.{claim_sound, path_sound, path_program};

use model::records::{Claim, Model};

pub fn claim_sound(m: &Model) -> bool
    ensures { result ≡ claim_sound m.now.claim m.now.programs m.now.machine_count }
{
    m.claim.kind < Claim::KINDS
        && m.claim.program < m.programs
        && m.claim.machine < m.machine_count
        && (1..=Claim::PATH).contains(&m.claim.length)
        && path_sound(&m.claim.path, m.claim.length, m.programs)
}

fn path_sound(path: &[u8; 4], length: u8, programs: u8) -> bool
    ensures { result ≡ path_sound path.now length programs }
{
    path.iter().enumerate().all(|(i, p)| path_program(*p, i < usize::from(length), programs))
}

fn path_program(p: u8, listed: bool, programs: u8) -> bool
    ensures { result ≡ path_program p listed programs }
{
    if listed { p < programs } else { p == 0 }
}
