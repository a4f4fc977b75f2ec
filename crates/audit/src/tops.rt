// The top of a term: how many variables it asks to be bound, one more than its highest variable at any depth, and 0
// where it has none. Kept for each label, so that no term is walked twice: parts are earlier, so their tops are there
// when they are asked for.
#![tactic(auto, unfolding(crate::specs::Tops::top_of, crate::specs::Tops::past_of, crate::specs::Tops::top_at))]

ghost use Rattle.std.specs.Prelude.{◌≡◌};
ghost use Rattle.audit.specs.Tops.{tops_of, top_of, past_of, top_at};

use terms::line::term_in;
use terms::term::{Shape, Term, shape_of};

// Of all labels of a table, in one pass.
pub fn tops(t: &[u64; 512]) -> [u8; 512]
    ensures { result ≡ tops_of t.now }
{
    let mut out = [0u8; 512];
    for (i, n) in t.iter().enumerate() {
        out[i] = top_of(&out, term_in(*n));
    }
    out
}

// Of one term, by the tops of its parts.
pub fn top_of(known: &[u8; 512], x: Term) -> u8
    ensures { result ≡ top_of known.now x }
{
    match shape_of(x.kind) {
        Shape::Bare | Shape::Number | Shape::Unknown => 0,
        Shape::Variable => past(x.a),
        Shape::Sealed | Shape::Hashed => top_at(known, x.a),
        Shape::Applied => top_at(known, x.b),
        Shape::Joined => top_at(known, x.a).max(top_at(known, x.b)),
    }
}

// Variables 0 to a. A number past the limit is no variable.
fn past(a: u16) -> u8
    ensures { result ≡ past_of a }
{
    if a < Term::VARIABLES { a as u8 + 1 } else { 0 }
}

// The top of a label, 0 where there is none.
pub fn top_at(known: &[u8; 512], label: u16) -> u8
    ensures { result ≡ top_at known.now label }
{
    known.get(usize::from(label)).copied().unwrap_or(0)
}
