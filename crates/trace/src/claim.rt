// The claim judged over the events of a run, which stand as structs in a lent table.
ghost use Rattle.std.specs.Prelude.{◌≡◌};
ghost use Rattle.machine.specs.Judge.{first_break_on};

use crate::event::Event;
use crate::verdict::{broken, judge_table, start};
use machine::claim::first_break;
use model::records::Claim;

// The first of n records that breaks the claim, counted from 1; 0 where none does. The records stand up as structs and
// are judged there; more than the table has room for are judged as they lie.
pub fn judge(records: &[u16], n: u16, c: Claim) -> u16
    ensures { result ≡ first_break_on records.now n c }
{
    if Event::ROOM < n {
        first_break(records, n, c)
    } else {
        broken(judge_table(records, start(n, c)))
    }
}
