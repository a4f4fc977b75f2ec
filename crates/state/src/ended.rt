// The programs of the threads that a step ended by an ordinary action or a hand-over. Such an ending is an accept of
// that program; a reset's and a late launch's endings are none.
#![tactic(auto, unfolding(crate::specs::Ended::ended_one, crate::specs::Ended::ended_both))]

ghost use Rattle.std.specs.Prelude.{◌≡◌};
ghost use Rattle.state.specs.Ended.{endings_of, first_ended, second_ended, ended_one, ended_both};

use crate::moves::is_last;
use crate::slot::Slot;

// The sender's program first. An enum of its own: none, one or two in order are no Option and no pair.
#[derive(Clone, Copy, PartialEq, Eq)]
pub enum Ended {
    Nobody,
    One(u8),
    Two(u8, u8),
}

// How many ended.
pub fn endings_of(n: Ended) -> u16
    ensures { result ≡ endings_of n }
{
    match n {
        Ended::Nobody => 0,
        Ended::One(_) => 1,
        Ended::Two(_, _) => 2,
    }
}

// The program of the first that ended, 0 where none did.
pub fn first_ended(n: Ended) -> u16
    ensures { result ≡ first_ended n }
{
    match n {
        Ended::Nobody => 0,
        Ended::One(p) | Ended::Two(p, _) => u16::from(p),
    }
}

// The program of the second that ended, 0 where none did.
pub fn second_ended(n: Ended) -> u16
    ensures { result ≡ second_ended n }
{
    match n {
        Ended::Nobody | Ended::One(_) => 0,
        Ended::Two(_, q) => u16::from(q),
    }
}

// The ending of a thread that makes its action.
pub fn ended_one(lengths: &[u8; 32], q: Slot) -> Ended
    ensures { result ≡ ended_one lengths.now q }
{
    if is_last(lengths, q) {
        Ended::One(q.program)
    } else {
        Ended::Nobody
    }
}

// The endings of sender and receiver.
pub fn ended_both(lengths: &[u8; 32], q: Slot, r: Slot) -> Ended
    ensures { result ≡ ended_both lengths.now q r }
{
    match (is_last(lengths, q), is_last(lengths, r)) {
        (true, true) => Ended::Two(q.program, r.program),
        (true, false) => Ended::One(q.program),
        (false, true) => Ended::One(r.program),
        (false, false) => Ended::Nobody,
    }
}
