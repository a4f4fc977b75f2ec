// A step breaks the claim only by ending a thread in the claim's program.
ghost use Rattle.std.specs.Prelude.{◌≡◌};
ghost use Rattle.quiet.specs.Quiet.{stands_in, nobody_stands};

use model::records::Model;
use state::moves::is_last;
use state::slot::slot_in;

// A live thread that stands before the last action of this program. Most slots are free, as number 0 is, so that is asked first,
// before the number is taken apart.
fn stands(lengths: &[u8; 32], program: u8, n: u64) -> bool
    ensures { result ≡ stands_in lengths.now program n }
{
    if n == 0 {
        return false;
    }
    let q = slot_in(n);
    q.live && q.program == program && is_last(lengths, q)
}

pub fn nobody_stands(slots: &[u64; 12], m: &Model, program: u8) -> bool
    ensures { result ≡ nobody_stands slots.now m.now.lengths program }
{
    !slots.iter().any(|n| stands(&m.lengths, program, *n))
}
