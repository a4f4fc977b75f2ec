// The run program: reads a model and the R lines at the end, makes their steps from the fresh configuration, and writes
// what came of each.
#![tactic(auto)]

use intake::{Failure, blank, ended, read_input};
use lines::codes::last_codes;
use lines::field::{front_of, rest_of};
use lines::put::Page;
use model::records::Model;
use pages::answers::{first_codes, read_codes};
use pages::refused::write_refused;
use pages::runner::run_page;
use std::io;
use std::io::Write;
use std::process::ExitCode;

// An input of 65,536 bytes has at most 16,384 R lines, of four bytes at least. There is room for 4,096 events of twelve
// numbers.
fn run_all(out: &mut impl Write, m: &Model, rest: &[u8]) -> io::Result<()> {
    let mut codes = [0u16; 16384];
    let count = read_codes(rest, &mut codes);
    let mut answers = [0u8; 16384];
    let mut records = [0u16; 49152];
    // A line of output has at most three numbers of at most ten digits, and so at most 36 bytes; the last one has 38.
    let mut bytes: [u8; 589862] = blank();
    let mut page = Page {
        bytes: &mut bytes,
        next: 0,
    };
    run_page(
        m,
        first_codes(&codes, count),
        &mut answers,
        &mut records,
        &mut page,
    );
    out.write_all(page.text())
}

fn answer(out: &mut impl Write, s: &[u8]) -> io::Result<()> {
    let at = match last_codes(s) {
        Ok(at) => at,
        Err(fault) => return write_refused(out, fault.number(), fault.line()),
    };
    match reader::load(front_of(s, at)) {
        Ok(m) => run_all(out, &m, rest_of(s, at)),
        Err(fault) => write_refused(out, fault.refusal.number(), fault.line),
    }
}

fn answer_input(rt: &HostRuntime, room: &mut [u8]) -> Result<(), Failure> {
    let n = read_input(rt, room).map_err(|_| Failure::Input)?;
    answer(&mut rt.stdout().lock(), front_of(room, n)).map_err(|_| Failure::Output)
}

// One byte more than an input may have: a room that is full says that it is too long.
fn main(rt: HostRuntime) -> ExitCode {
    let mut room = [0u8; 65537];
    ended(&rt, "run", answer_input(&rt, &mut room))
}
