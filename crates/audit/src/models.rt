// The soundness of a model, for every Model: every limit, reference, program and kind rule kept, and whatever stands past
// a count zero.
#![tactic(auto, unfolding(crate::specs::Models::sound_model, crate::specs::Models::may_be_listed, crate::specs::Models::names_program))]

ghost use Rattle.std.specs.Prelude.{◌≡◌};
ghost use Rattle.audit.specs.Models.{sound_model, terms_listed, may_be_listed, names_program};

use crate::claims::claim_sound;
use crate::listed::{locations_sound, machines_sound, threads_sound};
use crate::programs::programs_sound;
use model::records::Model;
use terms::line::{line_at, term_in};
use terms::sound::sound;
use terms::table::Table;
use terms::term::Term;

pub fn sound_model(m: &Model) -> bool
    ensures { result ≡ sound_model m.now }
{
    m.edition == 1
        && sound(&m.lines, m.count)
        && terms_listed(m)
        && programs_sound(m)
        && machines_sound(m)
        && locations_sound(m)
        && threads_sound(m)
        && claim_sound(m)
}

// No nonce is listed, and code terms name a program.
fn terms_listed(m: &Model) -> bool
    ensures { result ≡ terms_listed m.now.lines m.now.count m.now.programs }
{
    (Table::FIXED..m.count).all(|i| may_be_listed(line_at(&m.lines, i), m.programs))
}

// kept: a kind is a number here (7 a nonce, 8 code), as a line of the table may hold any.
fn may_be_listed(n: u64, programs: u8) -> bool
    ensures { result ≡ may_be_listed n programs }
{
    let x = term_in(n);
    x.kind != 7 && names_program(x, programs)
}

// A code term names a program; of any other term there is nothing to say.
pub fn names_program(x: Term, programs: u8) -> bool
    ensures { result ≡ names_program x programs }
{
    x.kind != 8 || x.a < u16::from(programs)
}
