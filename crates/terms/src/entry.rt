// A term entered where it is new. One look at its shape tells how deep it is, whether it is ground and from where on it is
// looked for.
ghost use Rattle.std.specs.Prelude.{◌≡◌};
ghost use Rattle.terms.specs.Base.{held};
ghost use Rattle.terms.specs.Table.{added_in, add_to};
ghost use Rattle.terms.specs.Subst.{entered_in};
ghost use Rattle.terms.specs.Subbed.{subbed_in};
ghost use Rattle.terms.specs.Entry.{enter_from, enter_above, enter_above_both};

use crate::grade::{above, above_both, leaf};
use crate::line::{Grade, line_at, pack};
use crate::subbed::Subbed;
use crate::table::{Added, Entry, Size, find_line, free_entries};
use crate::term::{Shape, Term, shape_of};

// Lists a term unless it is there: it is new where there are more terms then.
pub fn add(t: &mut [u64; 512], count: u16, x: Term) -> Result<Added, Size>
    ensures { held (added_in count result) t.new ≡ add_to t.old count x }
{
    let r = entered(t, count, x);
    let label = r.label()?;
    let after = r.count();
    let entry = if after == count {
        Entry::Listed(label)
    } else {
        Entry::New(label)
    };
    Ok(Added {
        entry,
        count: after,
    })
}

// The same as a substitution's answer.
pub fn entered(t: &mut [u64; 512], count: u16, x: Term) -> Subbed
    ensures { held (subbed_in result.bits) t.new ≡ entered_in t.old count x }
{
    match shape_of(x.kind) {
        Shape::Bare | Shape::Number | Shape::Unknown => graded(t, count, x, 0, leaf(true)),
        Shape::Variable => graded(t, count, x, 0, leaf(false)),
        Shape::Sealed | Shape::Hashed => above_one(t, count, x, x.a),
        Shape::Applied => above_one(t, count, x, x.b),
        Shape::Joined => above_two(t, count, x),
    }
}

// A term above one part.
fn above_one(t: &mut [u64; 512], count: u16, x: Term, part: u16) -> Subbed
    ensures { held (subbed_in result.bits) t.new ≡ enter_above part t.old count x }
{
    let g = above(line_at(t, part));
    graded(t, count, x, part, g)
}

// A term above two parts.
fn above_two(t: &mut [u64; 512], count: u16, x: Term) -> Subbed
    ensures { held (subbed_in result.bits) t.new ≡ enter_above_both t.old count x }
{
    let g = above_both(line_at(t, x.a), line_at(t, x.b));
    graded(t, count, x, x.a.max(x.b), g)
}

// A term of which depth and ground mark are known, looked for from a label on.
fn graded(t: &mut [u64; 512], count: u16, x: Term, from: u16, g: Grade) -> Subbed
    ensures { held (subbed_in result.bits) t.new ≡ enter_from from g t.old count x }
{
    if Term::DEPTH < g.depth {
        return Subbed::refused(Size::Deep, count);
    }
    let n = pack(x, g);
    if let Some(label) = find_line(t, from, count, n) {
        return Subbed::listed(label, count);
    }
    if free_entries(count) == 0 {
        return Subbed::refused(Size::Full, count);
    }
    t[count as usize] = n;
    let next = count + 1;
    Subbed::listed(count, next)
}
