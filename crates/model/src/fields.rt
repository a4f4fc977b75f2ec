// What the fields of an action are: which ops use loc, x and y, and where a location must be of one kind.
#![tactic(auto, unfolding(crate::specs::Fields::loc_of, crate::specs::Fields::names_location, crate::specs::Fields::uses_x, crate::specs::Fields::uses_y, crate::specs::Fields::closing, crate::specs::Fields::unused_zero, crate::specs::Fields::loc_in_form, crate::specs::Fields::in_form, crate::specs::Fields::is_memory, crate::specs::Fields::is_register, crate::specs::Fields::kind_fits))]

ghost use Rattle.std.specs.Prelude.{◌≡◌};
ghost use Rattle.model.specs.Fields.{loc_of, names_location, uses_x, uses_y, closing, unused_zero, in_form, loc_in_form, is_memory, is_register, kind_fits};

use crate::records::Action;
use terms::term::Term;

// What an op's loc field is.
#[derive(Clone, Copy, PartialEq, Eq)]
pub enum Loc {
    // one of all locations
    Any,
    // RAM or disk
    Memory,
    // a register
    Register,
    // the number of a function
    Function,
    Unused,
}

pub fn loc_of(op: u8) -> Loc
    ensures { result ≡ loc_of op }
{
    match op {
        0 | 3 | 4 => Loc::Any,
        1 => Loc::Memory,
        2 => Loc::Register,
        14 => Loc::Function,
        _ => Loc::Unused,
    }
}

// The loc field is a location's number: read, write, extend, lock, unlock. One test, since every step asks it; that
// loc_of says the same of each op is proved.
pub fn names_location(op: u8) -> bool
    ensures { result ≡ names_location op }
{
    op < 5
}

// Write, extend, send, jump, and the ops from sign to match.
pub fn uses_x(op: u8) -> bool
    ensures { result ≡ uses_x op }
{
    matches!(op, 1 | 2 | 5 | 7..=17 | 19)
}

// Match, and the ops from sign to symdec.
pub fn uses_y(op: u8) -> bool
    ensures { result ≡ uses_y op }
{
    matches!(op, 7..=12 | 17)
}

// A jump or a late launch: no action may follow it in its program.
pub fn closes(op: u8) -> bool
    ensures { result ≡ closing op }
{
    op == 19 || op == 20
}

// A known op, its function below its limit, and its unused fields 0.
pub fn in_form(a: Action) -> bool
    ensures { result ≡ in_form a }
{
    a.op < Action::OPS
        && loc_in_form(a)
        && unused_zero(uses_x(a.op), a.x)
        && unused_zero(uses_y(a.op), a.y)
}

fn loc_in_form(a: Action) -> bool
    ensures { result ≡ loc_in_form a }
{
    match loc_of(a.op) {
        Loc::Any | Loc::Memory | Loc::Register => true,
        Loc::Function => a.loc < Term::FUNCTIONS,
        Loc::Unused => a.loc == 0,
    }
}

fn unused_zero(used: bool, n: u16) -> bool
    ensures { result ≡ unused_zero used n }
{
    used || n == 0
}

// The kind of a location fits the op: write takes RAM or disk, extend a register, the rest any.
pub fn kind_fits(op: u8, kind: u8) -> bool
    ensures { result ≡ kind_fits op kind }
{
    match loc_of(op) {
        Loc::Memory => is_memory(kind),
        Loc::Register => is_register(kind),
        Loc::Any | Loc::Function | Loc::Unused => true,
    }
}

// RAM or disk.
pub fn is_memory(kind: u8) -> bool
    ensures { result ≡ is_memory kind }
{
    kind < 2
}

// A static or a dynamic register.
pub fn is_register(kind: u8) -> bool
    ensures { result ≡ is_register kind }
{
    matches!(kind, 2 | 3)
}
