// What the numbers of one event say of a claim. This is the only place where they are judged: the records of a run are
// read for it number by number, the structs of a table are taken apart for it.
ghost use Rattle.std.specs.Prelude.{◌≡◌};
ghost use Rattle.machine.specs.Judge.{accepts_by, making_op, makes_by, path_at, follow_by};

use model::records::Claim;

// Of so many endings, in these programs, one is an accept of this program.
pub fn accepts_by(endings: u16, first: u16, second: u16, program: u8) -> bool
    ensures { result ≡ accepts_by endings first second program }
{
    let p = u16::from(program);
    match endings {
        0 => false,
        1 => first == p,
        _ => first == p || second == p,
    }
}

// A reset (kind 1: a late launch) of the claim's machine.
pub fn makes_by(op: u16, machine: u16, c: Claim) -> bool
    ensures { result ≡ makes_by op machine c }
{
    op == making_op(c.kind) && machine == u16::from(c.machine)
}

fn making_op(kind: u8) -> u16
    ensures { result ≡ making_op kind }
{
    if kind == 0 { 21 } else { 20 }
}

// How far along the path a thread is after the event: a jump to the next program of the path, to another, or no jump.
pub fn follow_by(op: u16, mover: u16, program: u16, serial: u16, c: Claim, at: u8) -> u8
    ensures { result ≡ follow_by op mover program serial c at }
{
    if c.length <= at || op != 19 || mover != serial {
        at
    } else if program == u16::from(path_at(c, at)) {
        at + 1
    } else {
        Claim::LEFT
    }
}

fn path_at(c: Claim, at: u8) -> u8
    ensures { result ≡ path_at c at }
{
    c.path.get(usize::from(at)).copied().unwrap_or(0)
}
