// The event of a step whose work is done, with the programs of the threads that end by it. It only reads.
#![tactic(auto, unfolding(crate::specs::Happened::advance_event, crate::specs::Happened::hand_event, crate::specs::Happened::happened_on, crate::specs::Happened::ended_advance, crate::specs::Happened::ended_on))]

ghost use Rattle.std.specs.Prelude.{◌≡◌};
ghost use Rattle.rules.specs.Happened.{alone_of, deed_of, advance_event, hand_event, happened_on, ended_advance, ended_on};

use crate::event::{Deed, Event, Happening, no_deed};
use crate::work::Labels;
use model::records::{Action, Model};
use state::code::{Way, way_of};
use state::control::Frame;
use state::early::next_action;
use state::ended::{Ended, ended_both, ended_one};
use state::slot::{Slot, slot_at};

pub fn happened(f: &Frame, m: &Model, code: u16, l: Labels) -> Happening
    ensures { result ≡ happened_on f.now m.now.actions m.now.lengths code l }
{
    match way_of(code) {
        Way::Nothing => alone(Event::Action(no_deed(), 0)),
        Way::Advance(i) => advance_event(f, m, i, l),
        Way::Hand(i, j) => hand_event(f, m, i, j, l),
        Way::Reset(machine) => alone(Event::Reset(machine, f.serial)),
    }
}

// The programs of the threads that end by a step: what its event says of endings, without the event.
pub fn ended_by(f: &Frame, m: &Model, code: u16) -> Ended
    ensures { result ≡ ended_on f.now.slots m.now.actions m.now.lengths code }
{
    match way_of(code) {
        Way::Advance(i) => ended_advance(m, slot_at(&f.slots, i)),
        Way::Hand(i, j) => ended_both(&m.lengths, slot_at(&f.slots, i), slot_at(&f.slots, j)),
        Way::Nothing | Way::Reset(_) => Ended::Nobody,
    }
}

fn ended_advance(m: &Model, q: Slot) -> Ended
    ensures { result ≡ ended_advance m.now.actions m.now.lengths q }
{
    match next_action(&m.actions, q).op {
        19 | 20 => Ended::Nobody,
        _ => ended_one(&m.lengths, q),
    }
}

// An event by which no thread ends as an accept.
fn alone(event: Event) -> Happening
    ensures { result ≡ alone_of event }
{
    Happening {
        event,
        ended: Ended::Nobody,
    }
}

fn deed_of(q: Slot, a: Action, l: Labels, res: u16) -> Deed
    ensures { result ≡ deed_of q a l res }
{
    Deed {
        serial: q.serial,
        loc: a.loc,
        x: l.x,
        y: l.y,
        result: res,
    }
}

// A jump is no ending, and late launch is no accept.
fn advance_event(f: &Frame, m: &Model, i: u8, l: Labels) -> Happening
    ensures { result ≡ advance_event f.now m.now.actions m.now.lengths i l }
{
    let q = slot_at(&f.slots, i);
    let a = next_action(&m.actions, q);
    let d = deed_of(q, a, l, l.result);
    match a.op {
        19 => alone(Event::Jump(d, l.program)),
        20 => alone(Event::Launch(d, q.machine, f.serial)),
        op => Happening {
            event: Event::Action(d, op),
            ended: ended_one(&m.lengths, q),
        },
    }
}

// The sender's deed shows the value as x, and no result.
fn hand_event(f: &Frame, m: &Model, i: u8, j: u8, l: Labels) -> Happening
    ensures { result ≡ hand_event f.now m.now.actions m.now.lengths i j l }
{
    let q = slot_at(&f.slots, i);
    let r = slot_at(&f.slots, j);
    let d = deed_of(q, next_action(&m.actions, q), l, 0);
    Happening {
        event: Event::HandOver(d, r.serial),
        ended: ended_both(&m.lengths, q, r),
    }
}
