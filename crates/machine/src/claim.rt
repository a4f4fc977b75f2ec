// The claim, judged over the records of a run. A step breaks it if it has an accept of the claim's program and no thread
// made for the claim, by an earlier event, has in earlier events first jumped along the path.
// kept: records and n are two parameters, since n may go past what is lent, where each number is 0 (first_break_on)
ghost use Rattle.std.specs.Prelude.{◌≡◌};
ghost use Rattle.machine.specs.Claim.{ended_in};
ghost use Rattle.machine.specs.Judge.{accepts_at, makes_at, follow_at, follows_on, fulfils_at, walked_on, breaks_on, broken_by, first_break_on, accepts_on};

use crate::judge::{accepts_by, follow_by, makes_by};
use model::records::Claim;
use rules::event::{Record, number_at};
use state::control::one_more;
use state::ended::Ended;

// Record n breaks the claim, the n records before it being what is earlier.
pub fn breaks(records: &[u16], n: u16, c: Claim) -> bool
    ensures { result ≡ breaks_on records.now n c }
{
    accepts(records, n, c.program) && !walked(records, n, c)
}

// A step by which these threads ended breaks the claim, the n records being what is earlier.
pub fn broken_by(records: &[u16], n: u16, e: Ended, c: Claim) -> bool
    ensures { result ≡ broken_by records.now n e c }
{
    ends(e, c.program) && !walked(records, n, c)
}

// A thread that was in this program has ended.
fn ends(e: Ended, program: u8) -> bool
    ensures { result ≡ ended_in program e }
{
    match e {
        Ended::Nobody => false,
        Ended::One(p) => p == program,
        Ended::Two(p, q) => p == program || q == program,
    }
}

// The first of n records that breaks the claim, counted from 1; 0 where none does. Once the path is walked it stays
// walked, so only the first accept of the program can break.
pub fn first_break(records: &[u16], n: u16, c: Claim) -> u16
    ensures { result ≡ first_break_on records.now n c }
{
    match (0..n).find(|&i| accepts(records, i, c.program)) {
        Some(i) if !walked(records, i, c) => one_more(i),
        _ => 0,
    }
}

// Record i has an accept of a program: the ending of a thread that was in it.
pub fn accepts(records: &[u16], i: u16, program: u8) -> bool
    ensures { result ≡ accepts_at records.now i program }
{
    let endings = number_at(records, i, Record::ENDINGS);
    let first = number_at(records, i, Record::FIRST);
    let second = number_at(records, i, Record::SECOND);
    accepts_by(endings, first, second, program)
}

// Among the first n events one made a thread for the claim whose first jumps are the path.
pub fn walked(records: &[u16], n: u16, c: Claim) -> bool
    ensures { result ≡ walked_on records.now n c }
{
    (0..n).any(|i| fulfils(records, n, i, c))
}

fn fulfils(records: &[u16], n: u16, i: u16, c: Claim) -> bool
    ensures { result ≡ fulfils_at records.now n i c }
{
    makes(records, i, c) && follows(records, n, number_at(records, i, Record::THREAD), c)
}

// Record i made a thread for the claim.
fn makes(records: &[u16], i: u16, c: Claim) -> bool
    ensures { result ≡ makes_at records.now i c }
{
    let op = number_at(records, i, Record::OP);
    let machine = number_at(records, i, Record::MACHINE);
    makes_by(op, machine, c)
}

// The first jumps of a thread among n events begin with the path.
fn follows(records: &[u16], n: u16, serial: u16, c: Claim) -> bool
    ensures { result ≡ follows_on records.now n serial c }
{
    (0..n).fold(0, |at, i| follow(records, i, serial, c, at)) == c.length
}

// How far along the path the thread is after record i.
fn follow(records: &[u16], i: u16, serial: u16, c: Claim, at: u8) -> u8
    ensures { result ≡ follow_at records.now i serial c at }
{
    let op = number_at(records, i, Record::OP);
    let mover = number_at(records, i, Record::SERIAL);
    let program = number_at(records, i, Record::PROGRAM);
    follow_by(op, mover, program, serial, c, at)
}

// Accepts of any program in n records.
pub fn all_accepts(records: &[u16], n: u16) -> u32
    ensures { result ≡ accepts_on records.now n }
{
    let mut sum = 0;
    for i in 0..n {
        sum += u32::from(number_at(records, i, Record::ENDINGS));
    }
    sum
}
