// What an action asks of the table once its operands are there: a label to keep or a term to make; nothing where match,
// key, pair or code does not fit. One line an action.
#![tactic(auto, unfolding(crate::specs::Want::sealed_by, crate::specs::Want::opened_by, crate::specs::Want::first_half, crate::specs::Want::second_half, crate::specs::Want::matched_of, crate::specs::Want::code_needed, crate::specs::Want::want_of))]

ghost use Rattle.std.specs.Prelude.{◌≡◌};
ghost use Rattle.rules.specs.Asked.{Keep};
ghost use Rattle.rules.specs.Want.{wanted_in, makes, fit, sealed_by, opened_by, want_of};

use model::records::Action;
use terms::term::Term;

#[derive(Clone, Copy)]
pub enum Want {
    Keep(u16),
    Make(Term),
}

// The operands of an action: the labels of ground x and y, the terms there, the value of its location, the next nonce.
#[derive(Clone, Copy)]
pub struct Given {
    pub x: u16,
    pub y: u16,
    pub first: Term,
    pub second: Term,
    pub value: u16,
    pub nonce: u16,
}

// Actions with no value of their own keep label 0.
// kept: a match on the op's number, the form that the scope document names for it
pub fn want_of(a: Action, g: &Given) -> Option<Want>
    ensures { wanted_in result ≡ want_of a g.now }
{
    match a.op {
        0 => Some(Want::Keep(g.value)),
        2 => made(14, g.value, g.x),
        7 => sealed(10, 5, g),
        8 => opened(10, 4, g),
        9 => sealed(11, 4, g),
        10 => opened(11, 5, g),
        11 => sealed(12, 4, g),
        12 => opened(12, 4, g),
        13 => made(13, g.x, 0),
        14 => made(15, a.loc, g.x),
        15 => kept(g.first.kind == 9, g.first.a),
        16 => kept(g.first.kind == 9, g.first.b),
        17 => kept(g.x == g.y, 0),
        18 => made(7, g.nonce, 0),
        19 => kept(g.first.kind == 8, 0),
        _ => Some(Want::Keep(0)),
    }
}

// The label, where the operands fit: halves need a pair, match equal terms, which have one label, and jump a code.
fn kept(fits: bool, label: u16) -> Option<Want>
    ensures { wanted_in result ≡ fit fits (Keep label) }
{
    fits.then_some(Want::Keep(label))
}

fn made(kind: u8, a: u16, b: u16) -> Option<Want>
    ensures { wanted_in result ≡ makes kind a b }
{
    Some(Want::Make(Term { kind, a, b }))
}

// sign, enc, symenc: y must be of the key's kind; the term is x under the number of that key.
fn sealed(kind: u8, key: u8, g: &Given) -> Option<Want>
    ensures { wanted_in result ≡ sealed_by kind key g.now }
{
    if g.second.kind != key {
        return None;
    }
    made(kind, g.x, g.second.a)
}

// verify, dec, symdec: x must be of that kind and y a key of that kind, both with one number; what is inside is kept.
fn opened(kind: u8, key: u8, g: &Given) -> Option<Want>
    ensures { wanted_in result ≡ opened_by kind key g.now }
{
    if g.first.kind == kind && g.second.kind == key && g.first.b == g.second.a {
        Some(Want::Keep(g.first.a))
    } else {
        None
    }
}
