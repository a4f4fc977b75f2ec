// A program's input, read into room that the program lends, and how a program ends. Nothing is allocated.
#![tactic(auto)]

ghost use Rattle.std.specs.Prelude.{◌≡◌, ◌≤◌, ◌<◌, length, take, cond, is_ok, replicate, IfOk};
ghost use Rattle.std.specs.Io.KnownBytes.{Consumes, IsAtEnd};
ghost use Rattle.std.specs.Process.{exit_status};

use std::fmt::{Display, Formatter};
use std::io::Read;
use std::process::ExitCode;
use std::{fmt, io};

// What a program could not do.
#[derive(Clone, Copy, PartialEq, Eq)]
pub enum Failure {
    Input,
    Output,
}

impl Display for Failure {
    fn fmt<W: fmt::Write>(&self, f: &mut Formatter<W>) -> fmt::Result {
        match self {
            Failure::Input => write!(f, "the input could not be read"),
            Failure::Output => write!(f, "the output could not be written"),
        }
    }
}

// Reads until the room is full, the input ends or a read fails, and says how many bytes stand at the front of the room.
pub fn read_full<R: Read>(input: &mut R, room: &mut [u8]) -> io::Result<usize>
    ensures within { IfOk result (λ n. n ≤ length room.new) }
    ensures bytes { IfOk result (λ n. Consumes (R.remaining input.old) (R.remaining input.new) (take n room.new)) }
    ensures whole { IfOk result (λ n. n < length room.new → IsAtEnd (R.remaining input.new)) }
{
    let mut n = 0;
    // kept: how far a read comes is known once it is made
    while n < room.len() {
        let more = input.read(&mut room[n..])?;
        if more == 0 {
            break;
        }
        n += more;
    }
    Ok(n)
}

// The same of a program's own input. A closed one (9 is EBADF) is an empty one.
pub fn read_input(rt: &HostRuntime, room: &mut [u8]) -> io::Result<usize>
    ensures { IfOk result (λ n. n ≤ length room.new) }
{
    match read_full(&mut rt.stdin(), room) {
        Err(e) if e.raw_os_error() == Some(9) => Ok(0),
        read => read,
    }
}

// How a program ends: a failure is named behind the program, and gives the status 1.
pub fn ended(rt: &impl Eprint, program: &str, answered: Result<(), Failure>) -> ExitCode
    ensures { exit_status result ≡ cond (is_ok answered) 0 1 }
{
    match answered {
        Ok(()) => ExitCode::SUCCESS,
        Err(failure) => {
            let _ = eprintln!(rt; "{program}: {failure}");
            ExitCode::FAILURE
        }
    }
}

// Room of that many zeros. Made here, so that no proof of a program writes them out.
pub fn blank<const N: usize>() -> [u8; N]
    ensures { result ≡ replicate N 0 }
{
    [0; N]
}
