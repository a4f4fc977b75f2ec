// The event of a permitted step, and its record: twelve plain numbers.
#![tactic(auto, unfolding(crate::specs::Event::numbered, crate::specs::Event::record_of, crate::specs::Event::room_in, crate::specs::Event::number_at))]

ghost use Rattle.std.specs.Prelude.{◌≡◌};
ghost use Rattle.rules.specs.Event.{no_deed, numbered, record_of, room_in, number_at, record_put};

use state::ended::{Ended, endings_of, first_ended, second_ended};

// What the mover shows: its serial, its action's loc field, the labels of ground x, y and of the result, 0 where none.
#[derive(Clone, Copy, PartialEq, Eq)]
pub struct Deed {
    pub serial: u16,
    pub loc: u16,
    pub x: u16,
    pub y: u16,
    pub result: u16,
}

#[derive(Clone, Copy, PartialEq, Eq)]
pub enum Event {
    // the program jumped to
    Jump(Deed, u8),
    // the machine, and the serial of the new thread
    Launch(Deed, u8, u16),
    Reset(u8, u16),
    // the receiver's serial; the deed is the sender's
    HandOver(Deed, u16),
    // the op of any other action
    Action(Deed, u8),
}

// An event with its endings.
#[derive(Clone, Copy)]
pub struct Happening {
    pub event: Event,
    pub ended: Ended,
}

// A record: op (19 jump, 20 launch, 21 reset, 22 hand-over), serial, loc, x, y, result, program, machine, other thread,
// number of endings, and their programs.
#[derive(Clone, Copy)]
pub struct Record {
    pub numbers: [u16; 12],
}

impl Record {
    pub const NUMBERS: usize = 12;

    pub const OP: u8 = 0;

    pub const SERIAL: u8 = 1;

    pub const LOC: u8 = 2;

    pub const X: u8 = 3;

    pub const Y: u8 = 4;

    pub const RESULT: u8 = 5;

    pub const PROGRAM: u8 = 6;

    pub const MACHINE: u8 = 7;

    pub const THREAD: u8 = 8;

    pub const ENDINGS: u8 = 9;

    pub const FIRST: u8 = 10;

    pub const SECOND: u8 = 11;
}

pub fn no_deed() -> Deed
    ensures { result ≡ no_deed }
{
    Deed {
        serial: 0,
        loc: 0,
        x: 0,
        y: 0,
        result: 0,
    }
}

pub fn record_of(h: Happening) -> Record
    ensures { result ≡ record_of h }
{
    let n = h.ended;
    match h.event {
        Event::Jump(d, program) => numbered(19, d, u16::from(program), 0, 0, n),
        Event::Launch(d, machine, thread) => numbered(20, d, 0, u16::from(machine), thread, n),
        Event::Reset(machine, thread) => {
            numbered(21, no_deed(), 0, u16::from(machine), thread, n)
        }
        Event::HandOver(d, receiver) => numbered(22, d, 0, 0, receiver, n),
        Event::Action(d, op) => numbered(u16::from(op), d, 0, 0, 0, n),
    }
}

fn numbered(op: u16, d: Deed, program: u16, machine: u16, thread: u16, n: Ended) -> Record
    ensures { result ≡ numbered op d program machine thread n }
{
    Record {
        numbers: [
            op,
            d.serial,
            d.loc,
            d.x,
            d.y,
            d.result,
            program,
            machine,
            thread,
            endings_of(n),
            first_ended(n),
            second_ended(n),
        ],
    }
}

// How many records a lent table has room for.
pub fn room_in(records: &[u16]) -> usize
    ensures { result ≡ room_in records.now }
{
    records.len() / Record::NUMBERS
}

// A number of record i, 0 where there is none.
pub fn number_at(records: &[u16], i: u16, field: u8) -> u16
    ensures { result ≡ number_at records.now i field }
{
    let at = usize::from(i) * Record::NUMBERS + usize::from(field);
    records.get(at).copied().unwrap_or(0)
}

// Puts a record at place i; a table with no room for it stays as it is.
pub fn write_record(records: &mut [u16], i: u16, r: &Record)
    ensures { records.new ≡ record_put records.old i r.now }
{
    let from = usize::from(i) * Record::NUMBERS;
    // no get_mut: a proof knows nothing of the table after it
    let end = from + Record::NUMBERS;
    if end <= records.len() {
        records[from..end].copy_from_slice(&r.numbers);
    }
}
