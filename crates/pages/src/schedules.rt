// The lines of a listing: one for each bad schedule that stands in a room, and the closing line.
ghost use Rattle.std.specs.Prelude.{◌≡◌, ◌+◌, ◌*◌};
ghost use Rattle.lines.specs.Base.{byte_at};
ghost use Rattle.lines.specs.Put.{seen, put_all};
ghost use Rattle.pages.specs.ListText.{codes_text, schedule_line, schedules_text, closing_line};

use lines::field::{byte_at, rest_of};
use lines::put::{Page, Word};
use search::answer::Listing;

// The lines of the first schedules of a room.
pub fn put_schedules(page: &mut Page<'_>, room: &[u8], found: u32)
    ensures written { seen page.new ≡ put_all (schedules_text found room.now 0) (seen page.old) }
    ensures same_bytes { page.new.bytes.ghost_name ≡ page.old.bytes.ghost_name }
{
    for i in 0..found {
        put_schedule(page, room, i as usize * Listing::WIDTH);
    }
}

// bad, the length, the codes: the schedule whose length stands at a place of the room, its codes behind it.
fn put_schedule(page: &mut Page<'_>, room: &[u8], start: usize)
    ensures written { seen page.new ≡ put_all (schedule_line room.now start) (seen page.old) }
    ensures same_bytes { page.new.bytes.ghost_name ≡ page.old.bytes.ghost_name }
{
    let length = byte_at(room, start);
    page.put_word(Word::Bad);
    page.put_field(u32::from(length));
    put_codes(page, room, start, length);
    page.put_end();
}

fn put_codes(page: &mut Page<'_>, room: &[u8], start: usize, length: u8)
    ensures written { seen page.new ≡ put_all (codes_text length room.now (start + 1)) (seen page.old) }
    ensures same_bytes { page.new.bytes.ghost_name ≡ page.old.bytes.ghost_name }
{
    for i in 0..length {
        let code = byte_behind(room, start, usize::from(i) + 1);
        page.put_field(u32::from(code));
    }
}

// The byte so many places behind a place, 0 where there is none.
fn byte_behind(room: &[u8], start: usize, k: usize) -> u8
    ensures { result ≡ byte_at room.now (start + k) }
{
    byte_at(rest_of(room, start), k)
}

// end or stop, the tries of the whole listing, the tries refused for size.
pub fn put_closing(page: &mut Page<'_>, word: Word, tries: u32, sized: u32)
    ensures written { seen page.new ≡ put_all (closing_line word tries sized) (seen page.old) }
    ensures same_bytes { page.new.bytes.ghost_name ≡ page.old.bytes.ghost_name }
{
    page.put_word(word);
    page.put_field(tries);
    page.put_field(sized);
    page.put_end();
}
