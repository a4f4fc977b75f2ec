// A table of events: it is made, and where it is lent one is read, one is stored.
ghost use Rattle.std.specs.Prelude.{◌≡◌, get_or, set, replicate};
ghost use Rattle.trace.specs.Event.{no_event};

use crate::event::Event;
use state::moves::put;

// Room for events, all zeros.
pub fn blank() -> [Event; 4096]
    ensures { result ≡ replicate 4096 no_event }
{
    [Event::none(); 4096]
}

// The event at a place, and the one of all zeros where there is none.
pub fn event_at(es: &[Event], i: usize) -> Event
    ensures { result ≡ get_or es.now i no_event }
{
    es.get(i).copied().unwrap_or(Event::none())
}

// Puts an event at a place; a table with no such place stays as it is.
pub fn put_event(es: &mut [Event], i: usize, e: Event)
    ensures { es.new ≡ set es.old i e }
{
    put(es, i, e);
}
