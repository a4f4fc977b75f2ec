// Steps in a row: codes are tried one after the other, a refused one leaves the run going, and the event of a permitted
// one becomes a record of the lent table. One whose event finds the table full stops the run with 12, before it is made.
#![tactic(auto, using(rules::proofs::Sizes::is_err_of), unfolding(crate::specs::Run::one_turn, crate::specs::Run::turn_on, crate::specs::Run::permitted_on, crate::specs::Run::run_on))]

ghost use Rattle.std.specs.Prelude.{◌≡◌};
ghost use Rattle.terms.specs.Base.{held};
ghost use Rattle.state.specs.Refusal.{refused_in};
ghost use Rattle.rules.specs.Made.{layout_of};
ghost use Rattle.machine.specs.Recorded.{left};
ghost use Rattle.runs.specs.Run.{outcome, course, one_turn, all_refused, steps_on, run_on};

use audit::controls::sound_control;
use audit::models::sound_model;
use model::records::Model;
use rules::event::{record_of, room_in, write_record};
use rules::inner::try_step;
use state::control::{Control, one_more};
use state::refusal::Refusal;
use terms::table::cut;

// The configuration after the run, the events recorded, and the codes tried.
#[derive(Clone, Copy)]
pub struct Ran {
    pub control: Control,
    pub events: u16,
    pub tried: usize,
}

// Answers has one number for each code, 0 where it was permitted; codes past its end are not tried. A sound configuration
// is checked once, as steps keep soundness; in an unsound one every step is refused by 11.
pub fn run(
    t: &mut [u64; 512],
    m: &Model,
    s: &Control,
    codes: &[u16],
    answers: &mut [u8],
    records: &mut [u16],
) -> Ran
    ensures { course result t.new answers.new records.new ≡ run_on t.old m.now s.now codes.now answers.old records.old }
{
    if !sound_model(m) || !sound_control(m, t, s) {
        return all_refused(s, codes, answers);
    }
    steps(t, m, s, codes, answers, records)
}

fn all_refused(s: &Control, codes: &[u16], answers: &mut [u8]) -> Ran
    ensures { held result answers.new ≡ all_refused s.now codes.now answers.old }
{
    let tried = codes.len().min(answers.len());
    answers[..tried].fill(Refusal::Unsound.number());
    Ran {
        control: *s,
        events: 0,
        tried,
    }
}

fn steps(
    t: &mut [u64; 512],
    m: &Model,
    s: &Control,
    codes: &[u16],
    answers: &mut [u8],
    records: &mut [u16],
) -> Ran
    ensures { course result t.new answers.new records.new ≡ steps_on (layout_of m.now) m.now.machine_count t.old s.now codes.now answers.old records.old }
{
    let n = codes.len().min(answers.len());
    let mut control = *s;
    let mut events = 0;
    // by index: a proof knows nothing of what an iter_mut under a zip wrote
    for i in 0..n {
        let turn = one_turn(t, records, &mut control, &mut events, m, codes[i]);
        answers[i] = answer_of(turn);
        if turn == Err(Refusal::RecordsFull) {
            return Ran {
                control,
                events,
                tried: i + 1,
            };
        }
    }
    Ran {
        control,
        events,
        tried: n,
    }
}

fn answer_of(turn: Result<(), Refusal>) -> u8
    ensures { result ≡ refused_in turn }
{
    match turn {
        Ok(()) => 0,
        Err(refusal) => refusal.number(),
    }
}

// One code is tried: where it is permitted, its event is recorded.
fn one_turn(
    t: &mut [u64; 512],
    records: &mut [u16],
    s: &mut Control,
    events: &mut u16,
    m: &Model,
    code: u16,
) -> Result<(), Refusal>
    ensures { left (outcome (refused_in result) s.new events.new) t.new records.new ≡ one_turn (layout_of m.now) m.now.machine_count t.old records.old s.old events.old code }
{
    let mut next = *s;
    let happening = try_step(t, &mut next, m, code)?;
    if room_in(records) <= usize::from(*events) {
        cut(t, s.count, next.count);
        return Err(Refusal::RecordsFull);
    }
    write_record(records, *events, &record_of(happening));
    *s = next;
    *events = one_more(*events);
    Ok(())
}
