// A listing, page by page. A page has a line for each bad schedule that the room took; the last one ends with the
// closing line: end, or stop where the budget is out.
ghost use Rattle.std.specs.Prelude.{◌≡◌};
ghost use Rattle.lines.specs.Put.{seen, put_all};
ghost use Rattle.pages.specs.ListPage.{stand_in, stand_start, goes_on, last_text, paged, page_on};

use crate::schedules::{put_closing, put_schedules};
use lines::put::{Page, Word};
use model::records::Model;
use search::answer::Kind;
use search::place::Place;
use search::search::listing;

// Where a listing stands between two pages: the place, the budget left, the tries refused for size so far, and whether
// there is another page.
// kept: `going`, as the theorems pages_fall and list_prints speak of it
#[derive(Drop)]
pub struct Stand {
    pub place: Place,
    pub left: u32,
    pub sized: u32,
    pub going: bool,
}

impl Stand {
    // Before the first page: the budget covers the whole listing.
    pub fn start(budget: u32) -> Stand
        ensures { stand_in result 0 ≡ stand_start budget }
    {
        Stand {
            place: Place::start(),
            left: budget,
            sized: 0,
            going: true,
        }
    }
}

// The next page, from its start on. The room is for its schedules.
pub fn list_page(
    m: &Model,
    bound: u8,
    budget: u32,
    s: Stand,
    room: &mut [u8],
    page: &mut Page<'_>,
) -> Stand
    ensures written { paged (stand_in result page.new.next) room.new page.new.bytes.now ≡ page_on m.now bound budget (stand_in s page.old.next) room.old page.old.bytes.now }
    ensures same_bytes { page.new.bytes.ghost_name ≡ page.old.bytes.ghost_name }
{
    let l = listing(m, bound, s.place, s.left, room);
    let left = s.left.saturating_sub(l.tries);
    let sized = s.sized.saturating_add(l.sized);
    page.next = 0;
    put_schedules(page, room, l.found);
    put_last(page, l.kind, budget.saturating_sub(left), sized);
    Stand {
        place: l.place,
        left,
        sized,
        going: goes_on(l.kind),
    }
}

// Found says that the room is full: there is another page.
#[tactic(auto, unfolding(crate::specs::ListPage::goes_on))]
fn goes_on(kind: Kind) -> bool
    ensures { result ≡ goes_on kind }
{
    matches!(kind, Kind::Found)
}

// What stands after the schedules of a page.
fn put_last(page: &mut Page<'_>, kind: Kind, tries: u32, sized: u32)
    ensures written { seen page.new ≡ put_all (last_text kind tries sized) (seen page.old) }
    ensures same_bytes { page.new.bytes.ghost_name ≡ page.old.bytes.ghost_name }
{
    match kind {
        Kind::Found => {}
        Kind::Stop => put_closing(page, Word::Stop, tries, sized),
        Kind::End => put_closing(page, Word::End, tries, sized),
        Kind::Refused(number) => page.put_refused(number, 0),
    }
}
