// A term as one line of the table: its kind and its two fields. What the fields of a kind are, parts, numbers or
// unused, is decided here and nowhere else.
ghost use Rattle.std.specs.Prelude.{◌≡◌};
ghost use Rattle.terms.specs.Term.{shape_of, in_limits, parts_below, after_parts};

// kept: a kind is a number, since any line of any table is read, and sound judges it
#[derive(Clone, Copy)]
pub struct Term {
    pub kind: u8,
    pub a: u16,
    pub b: u16,
}

impl Term {
    // A term's depth is at most this.
    pub const DEPTH: u16 = 16;
    // Variables are numbered below this.
    pub const VARIABLES: u16 = 16;
    // Functions are numbered below this.
    pub const FUNCTIONS: u16 = 256;
}

// What the two fields of a kind are.
#[derive(Drop)]
pub enum Shape {
    // both unused: sinit, dinit
    Bare,
    // a is a number, b is unused: number, agent, key, inverse of a key, nonce, code
    Number,
    // a is the number of a variable, b is unused
    Variable,
    // a is a part, b is the number of a key: signature, encryption, symmetric encryption
    Sealed,
    // a is a part, b is unused: hash
    Hashed,
    // a is the number of a function, b is a part
    Applied,
    // both are parts: pair, chain
    Joined,
    // no kind of document 01
    Unknown,
}

pub fn shape_of(kind: u8) -> Shape
    ensures { result ≡ shape_of kind }
{
    match kind {
        0 => Shape::Number,
        1 => Shape::Bare,
        2 => Shape::Bare,
        3 => Shape::Number,
        4 => Shape::Number,
        5 => Shape::Number,
        6 => Shape::Variable,
        7 => Shape::Number,
        8 => Shape::Number,
        9 => Shape::Joined,
        10 => Shape::Sealed,
        11 => Shape::Sealed,
        12 => Shape::Sealed,
        13 => Shape::Hashed,
        14 => Shape::Joined,
        15 => Shape::Applied,
        _ => Shape::Unknown,
    }
}

// The kind is known, unused fields are 0, a variable and a function are within their limits.
pub fn in_limits(x: Term) -> bool
    ensures { result ≡ in_limits x }
{
    match shape_of(x.kind) {
        Shape::Bare => x.a == 0 && x.b == 0,
        Shape::Number | Shape::Hashed => x.b == 0,
        Shape::Variable => x.a < Term::VARIABLES && x.b == 0,
        Shape::Sealed | Shape::Joined => true,
        Shape::Applied => x.a < Term::FUNCTIONS,
        Shape::Unknown => false,
    }
}

// Every part is a label below label.
pub fn parts_below(x: Term, label: u16) -> bool
    ensures { result ≡ parts_below x label }
{
    match shape_of(x.kind) {
        Shape::Bare | Shape::Number | Shape::Variable | Shape::Unknown => true,
        Shape::Sealed | Shape::Hashed => x.a < label,
        Shape::Applied => x.b < label,
        Shape::Joined => x.a < label && x.b < label,
    }
}

// The later of a term's parts, 0 where it has none. Parts stand before wholes, so the term stands at no label before it.
#[tactic(auto, using(crate::proofs::Laws::larger_max), unfolding(crate::specs::Term::after_parts))]
pub fn after_parts(x: Term) -> u16
    ensures { result ≡ after_parts x }
{
    match shape_of(x.kind) {
        Shape::Bare | Shape::Number | Shape::Variable | Shape::Unknown => 0,
        Shape::Sealed | Shape::Hashed => x.a,
        Shape::Applied => x.b,
        Shape::Joined => x.a.max(x.b),
    }
}
