// A thread's values put for variables, down the parts of a term. Variable a of the thread stands at place base + a of
// the lent values. Asking how deep the result would be enters nothing; substituting enters new terms in the order
// first part, second part, whole.
ghost use Rattle.std.specs.Prelude.{◌≡◌, ◌+◌, get_or};
ghost use Rattle.terms.specs.Base.{held};
ghost use Rattle.terms.specs.Subbed.{subbed_in};
ghost use Rattle.terms.specs.Subst.{plan_at, fits_within, subst_in, second_operand, take_both, deep_or_full, take_operands, taken_of, walked_in, operands_in};

use crate::entry::entered;
use crate::line::{depth_at, ground_in, line_at, term_at, term_in};
use crate::subbed::Subbed;
use crate::table::{Size, cut};
use crate::term::{Shape, Term, shape_of};

// What is to be done at a label: keep a label, or go down its parts.
#[derive(Drop)]
pub enum Plan {
    Keep(u16),
    First(u16),
    Second(u16),
    Both(u16, u16),
}

// The labels of both operands of an action, and the count of terms with them.
#[derive(Clone, Copy)]
pub struct Operands {
    pub x: u16,
    pub y: u16,
    pub count: u16,
}

// What came of walking both operands, and the terms then in the table, those entered before a refusal too.
#[derive(Clone, Copy)]
pub struct Walked {
    pub labels: Result<(u16, u16), Size>,
    pub count: u16,
}

// The value at base + a, 0 where there is none.
fn value_at(values: &[u16; 192], base: u16, a: u16) -> u16
    ensures { result ≡ get_or values.now (base + a) 0 }
{
    let i = usize::from(base) + usize::from(a);
    values.get(i).copied().unwrap_or(0)
}

// A ground term is its own substitution, so its parts are not walked.
pub fn plan_at(t: &[u64; 512], values: &[u16; 192], base: u16, label: u16) -> Plan
    ensures { result ≡ plan_at t.now values.now base label }
{
    let n = line_at(t, label);
    if ground_in(n) {
        return Plan::Keep(label);
    }
    let x = term_in(n);
    match shape_of(x.kind) {
        Shape::Bare | Shape::Number | Shape::Unknown => Plan::Keep(label),
        Shape::Variable => Plan::Keep(value_at(values, base, x.a)),
        Shape::Sealed | Shape::Hashed => Plan::First(x.a),
        Shape::Applied => Plan::Second(x.b),
        Shape::Joined => Plan::Both(x.a, x.b),
    }
}

// The result would have depth room at most.
pub fn fits_within(t: &[u64; 512], values: &[u16; 192], base: u16, label: u16, room: u8) -> bool
    ensures { result ≡ fits_within room t.now values.now base label }
{
    if room == 0 {
        return false;
    }
    match plan_at(t, values, base, label) {
        Plan::Keep(l) => depth_at(t, l) <= room,
        Plan::First(a) => fits_within(t, values, base, a, room - 1),
        Plan::Second(b) => fits_within(t, values, base, b, room - 1),
        Plan::Both(a, b) => {
            fits_within(t, values, base, a, room - 1) && fits_within(t, values, base, b, room - 1)
        }
    }
}

// The substituted term, entered where it is new.
pub fn subst(
    t: &mut [u64; 512],
    count: u16,
    values: &[u16; 192],
    base: u16,
    label: u16,
    left: u8,
) -> Subbed
    ensures { held (subbed_in result.bits) t.new ≡ subst_in left t.old count values.now base label }
{
    if left == 0 {
        return Subbed::refused(Size::Deep, count);
    }
    match plan_at(t, values, base, label) {
        Plan::Keep(l) => Subbed::listed(l, count),
        Plan::First(a) => {
            let r = subst(t, count, values, base, a, left - 1);
            let Ok(first) = r.label() else {
                return r;
            };
            let x = term_at(t, label);
            entered(t, r.count(), Term { a: first, ..x })
        }
        Plan::Second(b) => {
            let r = subst(t, count, values, base, b, left - 1);
            let Ok(second) = r.label() else {
                return r;
            };
            let x = term_at(t, label);
            entered(t, r.count(), Term { b: second, ..x })
        }
        Plan::Both(a, b) => {
            let r = subst(t, count, values, base, a, left - 1);
            let Ok(first) = r.label() else {
                return r;
            };
            let q = subst(t, r.count(), values, base, b, left - 1);
            let Ok(second) = q.label() else {
                return q;
            };
            let x = term_at(t, label);
            let whole = Term {
                a: first,
                b: second,
                ..x
            };
            entered(t, q.count(), whole)
        }
    }
}

// Both operands of an action, each walked once. Where there is no room it is asked whether one is too deep, since 8
// comes before 9. A refusal leaves the table as it came.
pub fn take_operands(
    t: &mut [u64; 512],
    count: u16,
    values: &[u16; 192],
    base: u16,
    x: u16,
    y: u16,
) -> Result<Operands, Size>
    ensures { held (operands_in count result) t.new ≡ take_operands t.old count values.now base x y }
{
    let walked = take_both(t, count, values, base, x, y);
    match walked.labels {
        Ok((x, y)) => Ok(Operands {
            x,
            y,
            count: walked.count,
        }),
        Err(Size::Deep) => {
            cut(t, count, walked.count);
            Err(Size::Deep)
        }
        Err(Size::Full) => {
            cut(t, count, walked.count);
            Err(deep_or_full(t, values, base, x, y))
        }
    }
}

// Why both operands cannot be entered, where there is no room for both.
fn deep_or_full(t: &[u64; 512], values: &[u16; 192], base: u16, x: u16, y: u16) -> Size
    ensures { taken_of result ≡ deep_or_full t.now values.now base x y }
{
    if fits_within(t, values, base, x, 16) && fits_within(t, values, base, y, 16) {
        Size::Full
    } else {
        Size::Deep
    }
}

// Both operands entered one after the other, until one cannot be.
fn take_both(
    t: &mut [u64; 512],
    count: u16,
    values: &[u16; 192],
    base: u16,
    x: u16,
    y: u16,
) -> Walked
    ensures { held (walked_in result) t.new ≡ take_both t.old count values.now base x y }
{
    let p = subst(t, count, values, base, x, 16);
    match p.label() {
        Ok(first) => {
            let q = subst(t, p.count(), values, base, y, 16);
            second_operand(first, q)
        }
        Err(size) => Walked {
            labels: Err(size),
            count: p.count(),
        },
    }
}

// Both labels, where the second operand has one too.
fn second_operand(first: u16, q: Subbed) -> Walked
    ensures { walked_in result ≡ second_operand first (subbed_in q.bits) }
{
    let labels = match q.label() {
        Ok(second) => Ok((first, second)),
        Err(size) => Err(size),
    };
    Walked {
        labels,
        count: q.count(),
    }
}
