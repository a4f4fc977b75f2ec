// One turn of the walk. Codes that refusals 1 to 7 turn down are passed together and counted; then one code is tried. The
// configuration of each shorter schedule is kept, and the table is cut back to its count before a code is tried.
#![tactic(auto, unfolding(crate::specs::Turn::between, crate::specs::Turn::reached, crate::specs::Turn::one_try_more, crate::specs::Turn::closed, crate::specs::Turn::past, crate::specs::Turn::one_sized, crate::specs::Turn::refused_by, crate::specs::Turn::found_all, crate::specs::Turn::found_on, crate::specs::Turn::entering))]

ghost use Rattle.std.specs.Prelude.{◌≡◌};
ghost use Rattle.terms.specs.Base.{held};
ghost use Rattle.state.specs.Refusal.{number_of};
ghost use Rattle.search.specs.Turn.{between, reached, closed, past, refused_by, found_all, found_on, still, entering, lent, turn_on};

use crate::answer::{Kind, room_for, write_schedule};
use crate::place::{Place, at_code, pushed, settled};
use machine::claim::broken_by;
use model::records::Model;
use quiet::quiet::Outline;
use rules::happened::ended_by;
use rules::work::{Labels, work};
use state::code::{Code, code_after, code_from, codes_below};
use state::control::Control;
use state::refusal::Refusal;
use state::seek::seek;
use terms::table::cut;

// The place, always one with a code left or the end; budget left; tries refused for size; schedules found; terms in the
// table as the last try left it; and what the walk answers, none while it goes on.
#[derive(Clone, Copy)]
pub struct Walk {
    pub place: Place,
    pub left: u32,
    pub sized: u32,
    pub found: u32,
    pub filled: u16,
    pub answer: Option<Kind>,
}

// A step whose work is done, to be made where a longer schedule is entered by it.
#[derive(Clone, Copy)]
pub struct Step {
    pub code: u16,
    pub labels: Labels,
}

// What a turn's code leads to.
#[derive(Clone, Copy)]
pub enum Next {
    // no code was permitted, or it breaks the claim
    Nothing,
    // the schedule is as long as the bound with it, and is not entered
    Last(Step),
    // a longer schedule is entered by it
    Longer(Step),
}

// A turn's outcome: the walk after it, and the step that was permitted.
#[derive(Clone, Copy)]
pub struct Turned {
    pub walk: Walk,
    pub next: Next,
}

// What is fixed of a search beside its model.
#[derive(Clone, Copy)]
pub struct Task {
    pub bound: u8,
    pub outline: Outline,
}

// A turn at a schedule whose configuration is lent.
pub fn turn(
    t: &mut [u64; 512],
    records: &[u16],
    room: &mut [u8],
    s: &Control,
    w: Walk,
    m: &Model,
    k: Task,
) -> Turned
    ensures { lent result t.new records.now room.new
        ≡ turn_on t.old records.now room.old s.now w m.now k }
{
    let p = w.place;
    if Code::NONE <= p.next {
        return still(closed(w, p, 0, Kind::End));
    }
    let code = seek(&s.frame, m, p.next);
    let passed = between(p.next, code);
    if w.left < passed {
        let q = at_code(p, reached(p.next, w.left));
        return still(closed(w, q, w.left, Kind::Stop));
    }
    if Code::NONE <= code {
        return still(past(w, code, passed));
    }
    if w.left == passed {
        return still(closed(w, at_code(p, code), passed, Kind::Stop));
    }
    cut(t, s.count, w.filled);
    let v = past(w, code_after(code), passed + 1);
    match work(t, s, m, code) {
        Err(r) => still(refused_by(v, r)),
        Ok(l) => {
            let e = ended_by(&s.frame, m, code);
            if broken_by(records, u16::from(p.length), e, m.claim) {
                return still(found(room, v, pushed(p, code), l.count));
            }
            entering(v, p.length, Step { code, labels: l }, k.bound)
        }
    }
}

// A permitted code that breaks nothing: the longer schedule is entered where it is shorter than the bound.
fn entering(v: Walk, length: u8, step: Step, bound: u8) -> Turned
    ensures { result ≡ entering v length step.code step.labels bound }
{
    let shorter = u16::from(length) + 1 < u16::from(bound);
    Turned {
        walk: Walk {
            filled: step.labels.count,
            answer: None,
            ..v
        },
        next: if shorter {
            Next::Longer(step)
        } else {
            Next::Last(step)
        },
    }
}

// How many codes stand from one number up to another.
fn between(from: u16, to: u16) -> u32
    ensures { result ≡ between from to }
{
    u32::from(codes_below(to).saturating_sub(codes_below(from)))
}

// Where that many codes more lead: fewer than are left.
fn reached(next: u16, passed: u32) -> u16
    ensures { result ≡ reached next passed }
{
    code_from(codes_below(next) + (passed % 256) as u16)
}

// A turn from which no step comes.
fn still(walk: Walk) -> Turned
    ensures { result ≡ still walk }
{
    Turned {
        walk,
        next: Next::Nothing,
    }
}

// The walk closed at a place, after that many tries more.
fn closed(w: Walk, place: Place, tries: u32, kind: Kind) -> Walk
    ensures { result ≡ closed w place tries kind }
{
    Walk {
        place,
        left: w.left.saturating_sub(tries),
        answer: Some(kind),
        ..w
    }
}

// The walk gone on to a code of the same schedule, or back from it where none is left.
pub fn past(w: Walk, next: u16, tries: u32) -> Walk
    ensures { result ≡ past w next tries }
{
    Walk {
        place: settled(at_code(w.place, next)),
        left: w.left.saturating_sub(tries),
        answer: None,
        ..w
    }
}

// A refusal for size is counted. The count never passes the budget, so it never comes to the end of its type.
fn refused_by(v: Walk, r: Refusal) -> Walk
    ensures { result ≡ refused_by v (number_of r) }
{
    match r {
        Refusal::TooDeep | Refusal::NoRoom => Walk {
            sized: v.sized.saturating_add(1),
            answer: None,
            ..v
        },
        _ => v,
    }
}

// The schedule goes to the lent room; the walk goes on while there is room for another.
fn found(room: &mut [u8], v: Walk, q: Place, filled: u16) -> Walk
    ensures { held result room.new ≡ found_on room.old v q filled }
{
    write_schedule(room, v.found, q);
    let found = v.found.saturating_add(1);
    Walk {
        found,
        filled,
        answer: found_all(found, room),
        ..v
    }
}

// Found where the room is full; none while it takes another schedule.
pub fn found_all(found: u32, room: &[u8]) -> Option<Kind>
    ensures { result ≡ found_all found room.now }
{
    if (found as usize) < room_for(room) {
        None
    } else {
        Some(Kind::Found)
    }
}
