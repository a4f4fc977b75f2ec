// One turn of the walk over the configurations of all shorter schedules, which are lent. A step is made in place, in the
// configuration after: nothing is copied but the one that it starts from. Where the codes of a longer schedule are all plain
// and nothing is entered from it, they are passed at once.
ghost use Rattle.std.specs.Prelude.{◌≡◌, []};
ghost use Rattle.search.specs.Search.{scene, turned_on, longer};

use crate::place::{Place, level_of, pushed};
use crate::plain::{passes_late, passes_soon, quiet_at, spent_all};
use crate::turn::{Next, Step, Task, Walk, turn};
use model::records::Model;
use quiet::depths::deepest;
use rules::event::{record_of, write_record};
use rules::happened::happened;
use rules::made::{rest_made, slots_made};
use state::control::Control;

// A turn at the schedule where the walk stands, and the longer one where it enters that. Beside each configuration stands
// the depth of its deepest term.
pub fn advance(
    t: &mut [u64; 512],
    records: &mut [u16],
    room: &mut [u8],
    stack: &mut [Control; 25],
    deeps: &mut [u8; 25],
    w: Walk,
    m: &Model,
    k: Task,
) -> Walk
    ensures { scene result stack.new deeps.new t.new records.new room.new
        ≡ turned_on m.now k (scene w stack.old deeps.old t.old records.old room.old) }
{
    let r = turn(t, records, room, &stack[level_of(w.place.length)], w, m, k);
    match r.next {
        Next::Longer(step) => entered(t, records, stack, deeps, w.place, r.walk, step, m, k),
        Next::Last(_) | Next::Nothing => r.walk,
    }
}

// The schedule that is one longer than that of a place, by a step.
fn entered(
    t: &[u64; 512],
    records: &mut [u16],
    stack: &mut [Control; 25],
    deeps: &mut [u8; 25],
    p: Place,
    v: Walk,
    step: Step,
    m: &Model,
    k: Task,
) -> Walk
    ensures { scene result stack.new deeps.new t.now records.new []
        ≡ longer m.now k t.now records.old p v step stack.old deeps.old }
{
    let i = level_of(p.length);
    let s = &stack[i];
    let l = step.labels;
    let deep = deepest(t, deeps[i], s.count, l.count);
    let mut slots = s.frame.slots;
    slots_made(&mut slots, m, s.frame.serial, step.code, l.program);
    let quiet = quiet_at(v.left, p.length, k, &slots, m, l.count);
    if passes_soon(quiet, deep, k.outline, t, &slots, m) {
        return spent_all(v);
    }
    stack[i + 1] = stack[i];
    deeps[i + 1] = deep;
    rest_made(&mut stack[i + 1], m, step.code, l);
    stack[i + 1].frame.slots = slots;
    if passes_late(quiet, t, &stack[i + 1], m) {
        return spent_all(v);
    }
    let h = happened(&stack[i].frame, m, step.code, l);
    write_record(records, u16::from(p.length), &record_of(h));
    Walk {
        place: pushed(p, step.code),
        filled: l.count,
        answer: None,
        ..v
    }
}
