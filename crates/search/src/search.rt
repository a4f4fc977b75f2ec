// The search from a place, within a budget: the first bad schedule, or as many as lent room takes. The model is checked
// and the place entered once a call; from there on nothing is replayed.
ghost use Rattle.std.specs.Prelude.{◌≡◌, true, ltb};
ghost use Rattle.terms.specs.Base.{held};
ghost use Rattle.quiet.specs.Quiet.{outline_of};
ghost use Rattle.search.specs.Enter.{entry};
ghost use Rattle.search.specs.Answer.{room_for};
ghost use Rattle.search.specs.Turn.{lent};
ghost use Rattle.search.specs.Search.{first_walk, walk_from, bound_fits, deeps_of, walked, listing_on, search_on};

use crate::ahead::advance;
use crate::answer::{Answer, Listing, Refusal, refused_listing};
use crate::enter::{enter, in_bounds};
use crate::place::{Place, level_of, settled};
use crate::turn::{Task, Walk, found_all};
use audit::models::sound_model;
use model::records::Model;
use quiet::depths::deepest;
use quiet::quiet::Outline;
use state::control::Control;

// The first bad schedule from a place.
pub fn search(m: &Model, bound: u8, place: Place, budget: u32) -> Answer
    ensures { result ≡ search_on m.now bound place budget }
{
    let mut space = [0; 25];
    let l = listing(m, bound, place, budget, &mut space);
    let mut codes = [0; 24];
    codes.copy_from_slice(&space[1..]);
    Answer {
        kind: l.kind,
        codes,
        length: space[0],
        tries: l.tries,
        sized: l.sized,
        place: l.place,
    }
}

// The bad schedules from a place, in order, until the room is full, the budget is out or no pair is left: what calls of
// search from answer to answer would give. A room that takes none is full at once.
pub fn listing(m: &Model, bound: u8, place: Place, budget: u32, room: &mut [u8]) -> Listing
    ensures { held result room.new ≡ listing_on m.now bound place budget room.old }
{
    if !sound_model(m) {
        return refused_listing(Refusal::Unsound.number());
    }
    if !bound_fits(bound) {
        return refused_listing(Refusal::Unbounded.number());
    }
    if !in_bounds(place, bound) {
        return refused_listing(Refusal::Unfit.number());
    }
    let mut t = m.lines;
    let mut records = [0; 288];
    let mut stack = [Control::fresh(m); 25];
    match enter(&mut t, &mut records, &mut stack, m, place) {
        Ok(p) => {
            let k = Task {
                bound,
                outline: outline_of(m),
            };
            walk(&mut t, &mut records, room, &mut stack, m, p, budget, k)
        }
        Err(_) => refused_listing(Refusal::Unfit.number()),
    }
}

// What the tests for plain codes go by.
fn outline_of(m: &Model) -> Outline
    ensures { result ≡ outline_of m.now }
{
    Outline {
        program: m.claim.program,
        count: m.count,
        deep: deepest(&m.lines, 0, 0, m.count),
    }
}

fn bound_fits(bound: u8) -> bool
    ensures { result ≡ bound_fits bound }
{
    0 < bound && bound <= Place::BOUND
}

// The walk before its first turn, at a place that was entered.
fn first_walk(stack: &[Control; 25], p: Place, budget: u32, room: &[u8]) -> Walk
    ensures { result ≡ first_walk (entry true stack.now p) budget (ltb 0 (room_for room.now)) }
{
    Walk {
        place: settled(p),
        left: budget,
        sized: 0,
        found: 0,
        filled: stack[level_of(p.length)].count,
        answer: found_all(0, room),
    }
}

// The walk from a place that was entered. Each turn is lent the configurations of all shorter schedules.
fn walk(
    t: &mut [u64; 512],
    records: &mut [u16],
    room: &mut [u8],
    stack: &mut [Control; 25],
    m: &Model,
    p: Place,
    budget: u32,
    k: Task,
) -> Listing
    ensures { lent result t.new records.new room.new
        ≡ walked (walk_from t.old records.old room.old m.now (entry true stack.old p) budget k) budget }
{
    let mut deeps = deeps_of(t, stack);
    let mut w = first_walk(stack, p, budget, room);
    loop {
        match w.answer {
            None => w = advance(t, records, room, stack, &mut deeps, w, m, k),
            Some(kind) => {
                return Listing {
                    kind,
                    found: w.found,
                    tries: budget.saturating_sub(w.left),
                    sized: w.sized,
                    place: w.place,
                };
            }
        }
    }
}

// The depth of the deepest term of each configuration.
fn deeps_of(t: &[u64; 512], stack: &[Control; 25]) -> [u8; 25]
    ensures { result ≡ deeps_of t.now stack.now }
{
    let mut deeps = [0; 25];
    for (i, s) in stack.iter().enumerate() {
        deeps[i] = deepest(t, 0, 0, s.count);
    }
    deeps
}
