// The list program: reads a model and a last G line, and writes every bad schedule up to the bound, within the budget.
#![tactic(auto)]

use intake::{Failure, blank, ended, read_input};
use lines::field::front_of;
use lines::goal::{Goal, last_goal};
use lines::put::Page;
use model::records::Model;
use pages::lister::{Stand, list_page};
use pages::refused::write_refused;
use std::io;
use std::io::Write;
use std::process::ExitCode;

// kept: the model by value, since a proof knows the lengths of its arrays where it has it whole
fn list_all(out: &mut impl Write, m: Model, bound: u8, budget: u32) -> io::Result<()> {
    let mut room = [0u8; 15000];
    // A page holds 600 schedules: a line has at most 25 numbers of at most ten digits, and so at most 279 bytes.
    let mut bytes: [u8; 167430] = blank();
    let mut page = Page {
        bytes: &mut bytes,
        next: 0,
    };
    let mut s = Stand::start(budget);
    // kept: no index is counted here; each page says whether there is another
    while s.going {
        s = list_page(&m, bound, budget, s, &mut room, &mut page);
        out.write_all(page.text())?;
    }
    Ok(())
}

// Not inlined, so that an input with no good G line takes no stack for a model and the room of a listing.
#[inline(never)]
fn with_model(out: &mut impl Write, file: &[u8], goal: Goal) -> io::Result<()> {
    match reader::load(file) {
        Ok(m) => list_all(out, m, goal.bound, goal.budget),
        Err(fault) => write_refused(out, fault.refusal.number(), fault.line),
    }
}

fn answer(out: &mut impl Write, s: &[u8]) -> io::Result<()> {
    match last_goal(s) {
        Ok(goal) => with_model(out, front_of(s, goal.at), goal),
        Err(fault) => write_refused(out, fault.number(), fault.line()),
    }
}

fn answer_input(rt: &HostRuntime, room: &mut [u8]) -> Result<(), Failure> {
    let n = read_input(rt, room).map_err(|_| Failure::Input)?;
    answer(&mut rt.stdout().lock(), front_of(room, n)).map_err(|_| Failure::Output)
}

// One byte more than an input may have: a room that is full says that it is too long.
fn main(rt: HostRuntime) -> ExitCode {
    let mut room = [0u8; 65537];
    ended(&rt, "list", answer_input(&rt, &mut room))
}
