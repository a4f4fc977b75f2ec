// A line of the table is one exact number, from which the term, its depth and whether it is ground can be read again:
// ground * 2^48 + depth * 2^40 + kind * 2^32 + a * 2^16 + b. Two lines are equal exactly when the terms are, so a
// lookup is one comparison a line and nothing is ever taken for something else.
ghost use Rattle.std.specs.Prelude.{◌≡◌};
ghost use Rattle.terms.specs.Line.{packed, term_in, depth_in, ground_in, line_at, term_at, depth_at, ground_at};

use crate::term::Term;

// The depth of a term, and whether it holds no variable.
#[derive(Drop)]
pub struct Grade {
    pub depth: u16,
    pub grounded: bool,
}

pub fn pack(x: Term, g: Grade) -> u64
    ensures { result ≡ packed x g }
{
    let grounded = u64::from(g.grounded);
    let depth = u64::from(g.depth);
    let kind = u64::from(x.kind);
    let a = u64::from(x.a);
    let b = u64::from(x.b);
    grounded * 281474976710656 + depth * 1099511627776 + kind * 4294967296 + a * 65536 + b
}

pub fn term_in(n: u64) -> Term
    ensures { result ≡ term_in n }
{
    Term {
        kind: (n / 4294967296 % 256) as u8,
        a: (n / 65536 % 65536) as u16,
        b: (n % 65536) as u16,
    }
}

pub fn depth_in(n: u64) -> u8
    ensures { result ≡ depth_in n }
{
    (n / 1099511627776 % 256) as u8
}

pub fn ground_in(n: u64) -> bool
    ensures { result ≡ ground_in n }
{
    n / 281474976710656 % 2 == 1
}

// The line at a label, 0 where there is none.
pub fn line_at(t: &[u64; 512], label: u16) -> u64
    ensures { result ≡ line_at t.now label }
{
    t.get(usize::from(label)).copied().unwrap_or(0)
}

// The term at a label.
pub fn term_at(t: &[u64; 512], label: u16) -> Term
    ensures { result ≡ term_at t.now label }
{
    term_in(line_at(t, label))
}

// The depth of the term at a label, 0 where there is none.
pub fn depth_at(t: &[u64; 512], label: u16) -> u8
    ensures { result ≡ depth_at t.now label }
{
    depth_in(line_at(t, label))
}

// The term at a label holds no variable.
pub fn ground_at(t: &[u64; 512], label: u16) -> bool
    ensures { result ≡ ground_at t.now label }
{
    ground_in(line_at(t, label))
}
