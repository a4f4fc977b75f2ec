// The record of an event as a struct, and what one event says of a claim.
ghost use Rattle.std.specs.Prelude.{◌≡◌};
ghost use Rattle.trace.specs.Event.{no_event, event_at, accepts_in, makes_in, follow_in};

use machine::judge::{accepts_by, follow_by, makes_by};
use model::records::Claim;
use rules::event::{Record, number_at};

// op (19 jump, 20 launch, 21 reset, 22 hand-over), the mover's serial, loc, x, y, result, the program of a jump, the
// machine, the other thread, the number of endings, and their programs: the numbers of a record, each under its name.
// kept: numbers, as in the record that it is taken from, which may hold any
#[derive(Clone, Copy, Default)]
pub struct Event {
    pub op: u16,
    pub serial: u16,
    pub loc: u16,
    pub x: u16,
    pub y: u16,
    pub result: u16,
    pub program: u16,
    pub machine: u16,
    pub thread: u16,
    pub endings: u16,
    pub first: u16,
    pub second: u16,
}

impl Event {
    // how many a table has room for
    pub const ROOM: u16 = 4096;

    pub fn none() -> Event
        ensures { result ≡ no_event }
    {
        Event::default()
    }
}

// Record i, taken apart; numbers past the table are 0.
pub fn event_from(records: &[u16], i: u16) -> Event
    ensures { result ≡ event_at records.now i }
{
    Event {
        op: number_at(records, i, Record::OP),
        serial: number_at(records, i, Record::SERIAL),
        loc: number_at(records, i, Record::LOC),
        x: number_at(records, i, Record::X),
        y: number_at(records, i, Record::Y),
        result: number_at(records, i, Record::RESULT),
        program: number_at(records, i, Record::PROGRAM),
        machine: number_at(records, i, Record::MACHINE),
        thread: number_at(records, i, Record::THREAD),
        endings: number_at(records, i, Record::ENDINGS),
        first: number_at(records, i, Record::FIRST),
        second: number_at(records, i, Record::SECOND),
    }
}

// The event has an accept of a program.
pub fn accepts(e: &Event, program: u8) -> bool
    ensures { result ≡ accepts_in e.now program }
{
    accepts_by(e.endings, e.first, e.second, program)
}

// It made a thread for the claim.
pub fn makes(e: &Event, c: Claim) -> bool
    ensures { result ≡ makes_in e.now c }
{
    makes_by(e.op, e.machine, c)
}

// How far along the path a thread is after it.
pub fn follow(e: &Event, serial: u16, c: Claim, at: u8) -> u8
    ensures { result ≡ follow_in e.now serial c at }
{
    follow_by(e.op, e.serial, e.program, serial, c, at)
}
