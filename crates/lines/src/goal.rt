// A last G line, taken off the end of an input: two decimals, the bound from 1 to 24 and the budget. What stands
// before it is the model.
ghost use Rattle.std.specs.Prelude.{◌≡◌};
ghost use Rattle.lines.specs.Goal.{budget_of, pair_of, goal_line, last_goal};

use crate::field::{byte_at, cut_line, front_of, opens_with, read_field, rest_of};
use crate::tail::{Fault, Tail, tail_of};

// What a last G line says.
#[derive(Clone, Copy)]
pub struct Goal {
    // the model is that many bytes
    pub at: usize,
    pub bound: u8,
    pub budget: u32,
}

impl Goal {
    // The bound is from 1 to this: a search's bound (`Place::BOUND`), which this crate does not see.
    pub const BOUND: u32 = 24;
    // The budget is at most this.
    pub const BUDGET: u32 = 4294967295;
}

// The two decimals of a G line.
#[derive(Clone, Copy)]
pub struct Pair {
    pub bound: u8,
    pub budget: u32,
}

// The bound's field, then the budget's: the rest after the bound's tab is handed on.
fn pair_of(rest: &[u8]) -> Option<Pair>
    ensures { result ≡ pair_of rest.now }
{
    let field = read_field(rest, Goal::BOUND)?;
    let next = field.next?;
    if field.number == 0 {
        return None;
    }
    budget_of(field.number as u8, rest_of(rest, next))
}

fn budget_of(bound: u8, rest: &[u8]) -> Option<Pair>
    ensures { result ≡ budget_of bound rest.now }
{
    let field = read_field(rest, Goal::BUDGET)?;
    match field.next {
        None => Some(Pair {
            bound,
            budget: field.number,
        }),
        Some(_) => None,
    }
}

// A whole G line, its LF too.
pub fn goal_line(rest: &[u8]) -> Option<Pair>
    ensures { result ≡ goal_line rest.now }
{
    let line = front_of(rest, cut_line(rest)?);
    if !opens_with(line, b'G') {
        return None;
    }
    pair_of(rest_of(line, 2))
}

// The last line, if its first byte is G.
pub fn last_goal(s: &[u8]) -> Result<Goal, Fault>
    ensures { result ≡ last_goal s.now }
{
    if Tail::BYTES < s.len() {
        return Err(Fault::Long);
    }
    let t = tail_of(s, b'G');
    let at = t.last;
    let line = t.lines as u32;
    if byte_at(s, at) != b'G' {
        return Err(Fault::Bad(line + 1));
    }
    let Pair { bound, budget } = goal_line(rest_of(s, at)).ok_or(Fault::Bad(line))?;
    Ok(Goal { at, bound, budget })
}
