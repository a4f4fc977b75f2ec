// What a step does with the table: the operands (8, then 9), what the action wants of them (10), and the result (8, then
// 9). A refusal leaves the table as it came.
#![tactic(auto, using(crate::proofs::Sizes::entry_labelled, crate::proofs::Sizes::size_refused, crate::proofs::Sizes::operand_refused, crate::proofs::Sizes::is_err_of), unfolding(crate::specs::Work::meet_new, crate::specs::Work::meet_want, crate::specs::Work::given_at, crate::specs::Work::try_action, crate::specs::Work::code_at, crate::specs::Work::work_advance, crate::specs::Work::work_on))]

ghost use Rattle.std.specs.Prelude.{◌≡◌};
ghost use Rattle.terms.specs.Base.{held};
ghost use Rattle.rules.specs.Want.{asked_in};
ghost use Rattle.rules.specs.Work.{tried_in, worked_in, meet_new, meet_want, given_at, try_action, code_at, work_advance, no_labels, work_on};

use crate::effect::place_of;
use crate::want::{Given, Want, want_of};
use model::records::{Action, Model};
use state::code::{Way, way_of};
use state::control::{Control, value_at};
use state::early::next_action;
use state::refusal::Refusal;
use state::slot::slot_at;
use terms::entry::add;
use terms::line::term_at;
use terms::subst::take_operands;
use terms::table::cut;
use terms::term::Term;

// The labels of ground x, y and of the result, the program of a jump, and the terms then in the table.
#[derive(Clone, Copy)]
pub struct Labels {
    pub x: u16,
    pub y: u16,
    pub result: u16,
    pub program: u8,
    pub count: u16,
}

// The labels of x and y and of the result.
#[derive(Clone, Copy)]
pub struct Met {
    pub x: u16,
    pub y: u16,
    pub result: u16,
}

// The table's part of a step that refusals 1 to 7 let through.
pub fn work(t: &mut [u64; 512], s: &Control, m: &Model, code: u16) -> Result<Labels, Refusal>
    ensures { held (worked_in result) t.new ≡ work_on t.old s.now m.now.actions code }
{
    match way_of(code) {
        Way::Nothing => Err(Refusal::NoCode),
        Way::Advance(i) | Way::Hand(i, _) => work_advance(t, s, m, i),
        Way::Reset(_) => Ok(no_labels(s.count)),
    }
}

// A reset has no operands.
pub fn no_labels(count: u16) -> Labels
    ensures { result ≡ no_labels count }
{
    Labels {
        x: 0,
        y: 0,
        result: 0,
        program: 0,
        count,
    }
}

// The action of the mover, or of the sender.
fn work_advance(t: &mut [u64; 512], s: &Control, m: &Model, i: u8) -> Result<Labels, Refusal>
    ensures { held (worked_in result) t.new ≡ work_advance t.old s.now m.now.actions i }
{
    let a = next_action(&m.actions, slot_at(&s.frame.slots, i));
    let value = value_at(&s.values, a.loc);
    let mut count = s.count;
    match try_action(
        t,
        &mut count,
        &s.vars,
        place_of(i, 0),
        a,
        value,
        s.frame.nonce,
    ) {
        Err(refusal) => {
            cut(t, s.count, count);
            Err(refusal)
        }
        Ok(met) => Ok(Labels {
            x: met.x,
            y: met.y,
            result: met.result,
            program: code_at(t, met.x),
            count,
        }),
    }
}

// The program that a code term names, 0 of any other term.
fn code_at(t: &[u64; 512], label: u16) -> u8
    ensures { result ≡ code_at t.now label }
{
    let e = term_at(t, label);
    if e.kind == 8 { (e.a % 256) as u8 } else { 0 }
}

// Count is that of the terms in the table, those entered before a refusal too.
fn try_action(
    t: &mut [u64; 512],
    count: &mut u16,
    vars: &[u16; 192],
    base: u16,
    a: Action,
    value: u16,
    nonce: u16,
) -> Result<Met, Refusal>
    ensures { held (tried_in result count.new) t.new ≡ try_action t.old count.old vars.now base a value nonce }
{
    let o = take_operands(t, *count, vars, base, a.x, a.y)?;
    *count = o.count;
    let Some(want) = want_of(a, &given(t, o.x, o.y, value, nonce)) else {
        return Err(Refusal::Unfit);
    };
    meet(t, count, o.x, o.y, want)
}

fn given(t: &[u64; 512], x: u16, y: u16, value: u16, nonce: u16) -> Given
    ensures { result ≡ given_at t.now x y value nonce }
{
    Given {
        x,
        y,
        first: term_at(t, x),
        second: term_at(t, y),
        value,
        nonce,
    }
}

// A wanted label is kept, a wanted term is listed unless it is there.
fn meet(t: &mut [u64; 512], count: &mut u16, x: u16, y: u16, want: Want) -> Result<Met, Refusal>
    ensures { held (tried_in result count.new) t.new ≡ meet_want t.old count.old x y (asked_in want) }
{
    match want {
        Want::Keep(result) => Ok(Met { x, y, result }),
        Want::Make(e) => meet_new(t, count, x, y, e),
    }
}

fn meet_new(t: &mut [u64; 512], count: &mut u16, x: u16, y: u16, e: Term) -> Result<Met, Refusal>
    ensures { held (tried_in result count.new) t.new ≡ meet_new t.old count.old x y e }
{
    let added = add(t, *count, e)?;
    *count = added.count;
    Ok(Met {
        x,
        y,
        result: added.entry.label(),
    })
}
