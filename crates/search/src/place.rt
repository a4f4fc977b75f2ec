// A place: a schedule, and the next code to try after it. Codes past the schedule's length are 0.
#![tactic(auto, unfolding(crate::specs::Place::start_place, crate::specs::Place::at_code, crate::specs::Place::code_put, crate::specs::Place::code_in, crate::specs::Place::pushed, crate::specs::Place::popped, crate::specs::Place::is_done))]

ghost use Rattle.std.specs.Prelude.{◌≡◌};
ghost use Rattle.search.specs.Place.{start_place, at_code, Level, code_in, pushed, Shorter, is_done, settled};

use state::code::{Code, code_after};

#[derive(Clone, Copy)]
pub struct Place {
    pub codes: [u8; 24],
    pub length: u8,
    pub next: u16,
}

impl Place {
    // A search's bound is at most this.
    pub const BOUND: u8 = 24;

    // Where every listing starts: the empty schedule and the first code, which is all zero.
    pub fn start() -> Place
        ensures { result ≡ start_place }
    {
        Place {
            codes: [0; 24],
            length: 0,
            next: 0,
        }
    }
}

// The same schedule with another next code.
pub fn at_code(p: Place, next: u16) -> Place
    ensures { result ≡ at_code p next }
{
    Place { next, ..p }
}

// The level of a schedule's length; schedules are shorter than 24.
pub fn level_of(length: u8) -> usize
    ensures { Level length result }
{
    usize::from(length % 24)
}

// The code at a place of a schedule.
pub fn code_in(codes: [u8; 24], i: u8) -> u16
    ensures { result ≡ code_in codes i }
{
    u16::from(codes[level_of(i)])
}

// One code longer, to be tried from its first code on.
pub fn pushed(p: Place, code: u16) -> Place
    ensures { result ≡ pushed p code }
{
    let mut codes = p.codes;
    codes[level_of(p.length)] = (code % 256) as u8;
    Place {
        codes,
        length: p.length % 255 + 1,
        next: 0,
    }
}

// One code shorter, to be tried from the code after that one on.
pub fn popped(p: Place) -> Place
    ensures { Shorter p result }
{
    let mut codes = p.codes;
    let length = p.length.saturating_sub(1);
    codes[level_of(length)] = 0;
    Place {
        codes,
        length,
        next: code_after(code_in(p.codes, length)),
    }
}

// Back to where a code is left, or to the end: the empty schedule with none left.
pub fn settled(p: Place) -> Place
    ensures { result ≡ settled p }
{
    let mut q = p;
    // kept: no index is counted here
    while is_done(q) {
        q = popped(q);
    }
    q
}

// None left, and a schedule to go back from.
fn is_done(p: Place) -> bool
    ensures { result ≡ is_done p }
{
    Code::NONE <= p.next && 0 < p.length
}
