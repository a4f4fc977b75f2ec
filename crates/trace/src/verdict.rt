// The claim judged over the events of a lent table.
ghost use Rattle.std.specs.Prelude.{◌≡◌};
ghost use Rattle.trace.specs.Table.{standing};
ghost use Rattle.trace.specs.Verdict.{starting, wants, follower_of, verdict_step, judged, break_in};

use crate::event::{Event, accepts, event_from, makes};
use crate::judge::{Judge, judge_all};
use crate::table::{blank, event_at, put_event};
use model::records::Claim;
use state::control::one_more;

// What is known after the events seen so far: an accept of the claim's program was met, some thread made for the claim
// has walked the path.
// kept: two facts that hold or not by themselves, as verdict_step of specs has them
#[derive(Clone, Copy)]
pub struct Verdict {
    pub claim: Claim,
    pub upto: usize,
    pub seen: u16,
    pub accepted: bool,
    pub walked: bool,
}

pub fn start(n: u16, c: Claim) -> Verdict
    ensures { result ≡ starting n c }
{
    Verdict {
        claim: c,
        upto: usize::from(n),
        seen: 0,
        accepted: false,
        walked: false,
    }
}

// The event made a thread that is to be followed: no accept is met yet, and no thread has walked the path.
fn wanted(k: &Verdict, e: &Event) -> bool
    ensures { result ≡ wants k.now e.now }
{
    !k.accepted && !k.walked && makes(e, k.claim)
}

pub fn follower(k: &Verdict, e: &Event) -> Judge
    ensures { result ≡ follower_of k.now e.now }
{
    if wanted(k, e) {
        Judge {
            claim: k.claim,
            upto: k.upto,
            serial: e.thread,
            at: 0,
            closed: false,
        }
    } else {
        Judge {
            claim: k.claim,
            upto: 0,
            serial: 0,
            at: 0,
            closed: true,
        }
    }
}

// The event is seen; j has followed the thread that it made.
pub fn verdict_step(k: Verdict, e: &Event, j: Judge) -> Verdict
    ensures { result ≡ verdict_step k e.now j }
{
    if k.accepted {
        k
    } else if accepts(e, k.claim.program) {
        Verdict {
            accepted: true,
            ..k
        }
    } else if wanted(&k, e) {
        Verdict {
            seen: one_more(k.seen),
            walked: j.at == k.claim.length,
            ..k
        }
    } else {
        Verdict {
            seen: one_more(k.seen),
            ..k
        }
    }
}

// Every event, and the thread that each made.
pub fn judge_claim(es: &[Event], k0: Verdict) -> Verdict
    ensures { result ≡ judged es.now k0 }
{
    let mut k = k0;
    for i in 0..k0.upto {
        let e = event_at(es, i);
        k = verdict_step(k, &e, judge_all(es, follower(&k, &e)));
    }
    k
}

// The records stand up as structs in a table of this function's own: it is lent to store each of them, and then to judge.
pub fn judge_table(records: &[u16], k: Verdict) -> Verdict
    ensures { result ≡ judged (standing records.now) k }
{
    let mut es = blank();
    for i in 0..Event::ROOM {
        put_event(&mut es, usize::from(i), event_from(records, i));
    }
    judge_claim(&es, k)
}

// The event that breaks the claim, counted from 1; 0 where none does: the first accept, unless the path was walked.
pub fn broken(k: Verdict) -> u16
    ensures { result ≡ break_in k }
{
    if k.accepted && !k.walked {
        one_more(k.seen)
    } else {
        0
    }
}
