// A place entered: the steps of its schedule are made from the fresh configuration, once, and the configuration of each
// shorter schedule is kept. The steps must be permitted and leave the claim unbroken.
#![tactic(auto, unfolding(crate::specs::Enter::in_bounds, crate::specs::Enter::goes_on))]

ghost use Rattle.std.specs.Prelude.{◌≡◌};
ghost use Rattle.terms.specs.Base.{held};
ghost use Rattle.machine.specs.Recorded.{left};
ghost use Rattle.search.specs.Enter.{in_bounds, goes_on, reply_of, entry_of, enter_on};

use crate::place::{Place, at_code, code_in, level_of, pushed};
use machine::claim::breaks;
use model::records::{Claim, Model};
use rules::event::{Happening, record_of, write_record};
use rules::inner::try_step;
use state::code::{Code, is_code};
use state::control::Control;
use state::refusal::Refusal;

// A schedule shorter than the bound, and a code, or 164, to try next.
pub fn in_bounds(p: Place, bound: u8) -> bool
    ensures { result ≡ in_bounds p bound }
{
    p.length < bound && (p.next == Code::NONE || is_code(p.next))
}

// The configurations are those on the way. Ok is the place entered, with 0 past its length; Err is the schedule as far as
// its steps were permitted and left the claim unbroken, and the first that was not.
pub fn enter(
    t: &mut [u64; 512],
    records: &mut [u16],
    stack: &mut [Control; 25],
    m: &Model,
    p: Place,
) -> Result<Place, Place>
    ensures { left (entry_of result stack.new) t.new records.new ≡ enter_on t.old records.old m.now p }
{
    *stack = [Control::fresh(m); 25];
    let mut place = Place::start();
    for i in 0..p.length {
        let level = level_of(i);
        let code = code_in(p.codes, i);
        stack[level + 1] = stack[level];
        let r = try_step(t, &mut stack[level + 1], m, code);
        place = pushed(place, code);
        if !goes_on(records, i, r, m.claim) {
            return Err(place);
        }
    }
    Ok(at_code(place, p.next))
}

// A step that was permitted is recorded; it goes on if it leaves the claim unbroken.
fn goes_on(records: &mut [u16], i: u8, r: Result<Happening, Refusal>, c: Claim) -> bool
    ensures { held result records.new ≡ goes_on records.old i (reply_of r) c }
{
    match r {
        Ok(h) => {
            write_record(records, u16::from(i), &record_of(h));
            !breaks(records, u16::from(i), c)
        }
        Err(_) => false,
    }
}
