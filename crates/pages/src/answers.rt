// A run: the codes of the R lines, a line for each code tried, ok with serial and op or no with the number of the
// refusal, and the closing line.
ghost use Rattle.std.specs.Prelude.{◌≡◌, take};
ghost use Rattle.terms.specs.Base.{held};
ghost use Rattle.lines.specs.Put.{seen, put_all};
ghost use Rattle.pages.specs.RunText.{serial_of, ok_line, no_line, answer_line, event_after, answers_text, done_line, codes_read};

use lines::codes::next_code;
use lines::field::rest_of;
use lines::put::{Page, Word};
use rules::event::{Record, number_at};

// The codes of the R lines that a rest of the input holds, as many as the lent room takes; how many there are.
pub fn read_codes(rest: &[u8], codes: &mut [u16]) -> usize
    ensures { held result codes.new ≡ codes_read rest.now codes.old }
{
    let mut at = 0;
    for count in 0..codes.len() {
        let Some(code) = next_code(rest_of(rest, at)).ok().flatten() else {
            return count;
        };
        codes[count] = code.code;
        at += code.next;
    }
    codes.len()
}

// The first codes of a list, all of them where it is shorter.
pub fn first_codes(codes: &[u16], count: usize) -> &[u16]
    ensures { result.now ≡ take count codes.now }
{
    codes.get(..count).unwrap_or(codes)
}

// The lines of the first codes of a run.
pub fn put_answers(
    page: &mut Page<'_>,
    codes: &[u16],
    answers: &[u8],
    records: &[u16],
    tried: usize,
)
    ensures written { seen page.new ≡ put_all (answers_text tried 0 0 codes.now answers.now records.now) (seen page.old) }
    ensures same_bytes { page.new.bytes.ghost_name ≡ page.old.bytes.ghost_name }
{
    let mut event = 0;
    for i in 0..tried {
        let code = codes.get(i).copied().unwrap_or(0);
        let number = answers.get(i).copied().unwrap_or(0);
        put_answer(page, code, number, records, event);
        event = event_after(event, number);
    }
}

fn put_answer(page: &mut Page<'_>, code: u16, number: u8, records: &[u16], i: u16)
    ensures written { seen page.new ≡ put_all (answer_line code number records.now i) (seen page.old) }
    ensures same_bytes { page.new.bytes.ghost_name ≡ page.old.bytes.ghost_name }
{
    if number == 0 {
        put_ok(page, code, records, i);
    } else {
        put_no(page, code, number);
    }
}

// ok: code, serial, op.
fn put_ok(page: &mut Page<'_>, code: u16, records: &[u16], i: u16)
    ensures written { seen page.new ≡ put_all (ok_line code records.now i) (seen page.old) }
    ensures same_bytes { page.new.bytes.ghost_name ≡ page.old.bytes.ghost_name }
{
    let op = number_at(records, i, Record::OP);
    let serial = serial_of(records, i, op);
    page.put_word(Word::Ok);
    page.put_field(u32::from(code));
    page.put_field(u32::from(serial));
    page.put_field(u32::from(op));
    page.put_end();
}

// no: code, number.
fn put_no(page: &mut Page<'_>, code: u16, number: u8)
    ensures written { seen page.new ≡ put_all (no_line code number) (seen page.old) }
    ensures same_bytes { page.new.bytes.ghost_name ≡ page.old.bytes.ghost_name }
{
    page.put_word(Word::No);
    page.put_field(u32::from(code));
    page.put_field(u32::from(number));
    page.put_end();
}

// done: steps, accepts of any program, first breaking step or 0.
pub fn put_done(page: &mut Page<'_>, steps: u16, accepts: u32, broken: u16)
    ensures written { seen page.new ≡ put_all (done_line steps accepts broken) (seen page.old) }
    ensures same_bytes { page.new.bytes.ghost_name ≡ page.old.bytes.ghost_name }
{
    page.put_word(Word::Done);
    page.put_field(u32::from(steps));
    page.put_field(accepts);
    page.put_field(u32::from(broken));
    page.put_end();
}

// The serial of a line: made by a reset, else the mover's or the sender's.
fn serial_of(records: &[u16], i: u16, op: u16) -> u16
    ensures { result ≡ serial_of records.now i op }
{
    if op == 21 {
        number_at(records, i, Record::THREAD)
    } else {
        number_at(records, i, Record::SERIAL)
    }
}

// The event after this answer's.
fn event_after(i: u16, number: u8) -> u16
    ensures { result ≡ event_after i number }
{
    if number == 0 { i % 65535 + 1 } else { i }
}
