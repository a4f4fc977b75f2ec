// A run on one page: a line for each code tried, and the closing line.
ghost use Rattle.std.specs.Prelude.{◌≡◌};
ghost use Rattle.pages.specs.RunPage.{told, run_page_on};

use crate::answers::{put_answers, put_done};
use lines::put::Page;
use machine::claim::all_accepts;
use model::records::Model;
use runs::run::run;
use state::control::Control;
use trace::claim::judge;

// The run of a model from its fresh configuration. The lent tables are for the answers and for the events.
pub fn run_page(
    m: &Model,
    codes: &[u16],
    answers: &mut [u8],
    records: &mut [u16],
    page: &mut Page<'_>,
)
    ensures written { told page.new.next answers.new records.new page.new.bytes.now ≡ run_page_on m.now codes.now answers.old records.old page.old.bytes.now }
    ensures same_bytes { page.new.bytes.ghost_name ≡ page.old.bytes.ghost_name }
{
    let mut t = m.lines;
    let r = run(&mut t, m, &Control::fresh(m), codes, answers, records);
    page.next = 0;
    put_answers(page, codes, answers, records, r.tried);
    let accepts = all_accepts(records, r.events);
    let broken = judge(records, r.events, m.claim);
    put_done(page, r.events, accepts, broken);
}
