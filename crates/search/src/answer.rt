// What a search answers: its kind, an enum, beside the schedule found; tries, place after, tries refused for size. On a
// refusal (11, 41, 40) all fields are zero.
#![tactic(auto, unfolding(crate::specs::Answer::refused_listing, crate::specs::Answer::room_for))]

ghost use Rattle.std.specs.Prelude.{◌≡◌};
ghost use Rattle.search.specs.Answer.{number_of, refused_listing, room_for, schedule_put};

use crate::place::Place;

#[derive(Clone, Copy)]
pub enum Kind {
    Found,
    Stop,
    End,
    // kept: search_unsound, search_unbounded and search_unfit speak of this number
    Refused(u8),
}

// Why a search is refused, each reason with the number that the scope document gives it.
#[derive(Clone, Copy, PartialEq, Eq)]
pub enum Refusal {
    // 11: the model is not sound
    Unsound,
    // 41: the bound is not 1 to 24
    Unbounded,
    // 40: the place does not fit
    Unfit,
}

impl Refusal {
    pub fn number(self) -> u8
        ensures { result ≡ number_of self }
    {
        match self {
            Refusal::Unsound => 11,
            Refusal::Unbounded => 41,
            Refusal::Unfit => 40,
        }
    }
}

#[derive(Drop)]
pub struct Answer {
    pub kind: Kind,
    pub codes: [u8; 24],
    pub length: u8,
    pub tries: u32,
    pub sized: u32,
    pub place: Place,
}

// The answers of a search gathered: how many schedules stand in the lent room. Found says that the room is full.
#[derive(Drop)]
pub struct Listing {
    pub kind: Kind,
    pub found: u32,
    pub tries: u32,
    pub sized: u32,
    pub place: Place,
}

impl Listing {
    // A schedule in lent room: its length and its 24 codes.
    pub const WIDTH: usize = 25;
}

// kept: of any number, as refused_listing of specs
pub fn refused_listing(number: u8) -> Listing
    ensures { result ≡ refused_listing number }
{
    Listing {
        kind: Kind::Refused(number),
        found: 0,
        tries: 0,
        sized: 0,
        place: Place::start(),
    }
}

// How many schedules a lent room takes.
pub fn room_for(room: &[u8]) -> usize
    ensures { result ≡ room_for room.now }
{
    room.len() / Listing::WIDTH
}

// Puts a schedule at place i of a room; a room too short for it stays as it is.
pub fn write_schedule(room: &mut [u8], i: u32, p: Place)
    ensures { room.new ≡ schedule_put room.old i p }
{
    let from = i as usize * Listing::WIDTH;
    if room.len() < from + Listing::WIDTH {
        return;
    }
    room[from] = p.length;
    room[from + 1..from + Listing::WIDTH].copy_from_slice(&p.codes);
}
