// One thread followed along a claim's path, over the events of a lent table.
ghost use Rattle.std.specs.Prelude.{◌≡◌};
ghost use Rattle.trace.specs.Judge.{judge_step, followed};

use crate::event::{Event, accepts, follow};
use model::records::Claim;

// How many events are to be judged, the thread's serial, how far along the path it is, and whether an accept of the
// claim's program was met: what comes after that isn't earlier.
// kept: closed is a state of its own, as judge_step of specs has it; at holds in both
#[derive(Clone, Copy)]
pub struct Judge {
    pub claim: Claim,
    pub upto: usize,
    pub serial: u16,
    pub at: u8,
    pub closed: bool,
}

pub fn judge_step(j: Judge, e: &Event) -> Judge
    ensures { result ≡ judge_step j e.now }
{
    if j.closed {
        j
    } else if accepts(e, j.claim.program) {
        Judge { closed: true, ..j }
    } else {
        Judge {
            at: follow(e, j.serial, j.claim, j.at),
            ..j
        }
    }
}

// The first events of the lent table, in order.
pub fn judge_all(es: &[Event], j0: Judge) -> Judge
    ensures { result ≡ followed es.now j0 }
{
    es.iter().take(j0.upto).fold(j0, judge_step)
}
