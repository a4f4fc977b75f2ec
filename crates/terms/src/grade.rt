// A term one above its parts: a leaf has depth 1, another term one more than its deepest part; a term without
// variables is ground.
ghost use Rattle.std.specs.Prelude.{◌≡◌};
ghost use Rattle.terms.specs.Line.{grade};
ghost use Rattle.terms.specs.Grade.{grade_of, above_line, above_both};

use crate::line::{Grade, depth_in, ground_in, line_at};
use crate::term::{Shape, Term, shape_of};

pub fn grade_of(t: &[u64; 512], x: Term) -> Grade
    ensures { result ≡ grade_of t.now x }
{
    match shape_of(x.kind) {
        Shape::Bare | Shape::Number | Shape::Unknown => leaf(true),
        Shape::Variable => leaf(false),
        Shape::Sealed | Shape::Hashed => above(line_at(t, x.a)),
        Shape::Applied => above(line_at(t, x.b)),
        Shape::Joined => above_both(line_at(t, x.a), line_at(t, x.b)),
    }
}

pub fn leaf(grounded: bool) -> Grade
    ensures { result ≡ grade 1 grounded }
{
    Grade { depth: 1, grounded }
}

pub fn above(n: u64) -> Grade
    ensures { result ≡ above_line n }
{
    Grade {
        depth: u16::from(depth_in(n)) + 1,
        grounded: ground_in(n),
    }
}

pub fn above_both(m: u64, n: u64) -> Grade
    ensures { result ≡ above_both m n }
{
    Grade {
        depth: u16::from(depth_in(m).max(depth_in(n))) + 1,
        grounded: ground_in(m) && ground_in(n),
    }
}
