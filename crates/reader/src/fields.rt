// The numbers of one line. The reader of a field is handed the rest of the line, and the rest after its tab goes to
// the next one.
#![tactic(auto, unfolding(crate::specs::Numbers::bad_fields, crate::specs::Numbers::fields_with, crate::specs::Numbers::fields_of, crate::specs::Numbers::are_fields, crate::specs::Numbers::up_to255))]

ghost use Rattle.std.specs.Prelude.{◌≡◌};
ghost use Rattle.reader.specs.Numbers.{good, told, fields_with, fields_of, are_fields, up_to255};

use lines::codes::Code;
use lines::field::{byte_at, read_field, rest_of};

// The numbers in their order; the places past the count are 0.
#[derive(Clone, Copy)]
pub struct Fields {
    pub count: u8,
    pub values: [u16; 7],
}

impl Fields {
    // A claim with the longest path has this many numbers, and no record has more.
    pub const MOST: u8 = 7;
    // A number in the file is at most this, as a code in an R line is.
    pub const NUMBER: u32 = Code::MOST;

    // One number more, where there is a place for it.
    fn with(mut self, v: u16) -> Option<Fields>
        ensures { told result ≡ fields_with (good self) v }
    {
        if Fields::MOST <= self.count {
            return None;
        }
        self.values[usize::from(self.count)] = v;
        self.count += 1;
        Some(self)
    }

    // A line of good form with that many numbers.
    pub fn are(line: &Option<Fields>, n: u8) -> bool
        ensures { result ≡ are_fields (told line.now) n }
    {
        matches!(line, Some(f) if f.count == n)
    }
}

// The numbers after a line's letter and its tab; None for a line of bad form.
pub fn fields_of(line: &[u8]) -> Option<Fields>
    ensures { told result ≡ fields_of line.now }
{
    if byte_at(line, 1) != b'\t' {
        return None;
    }
    let mut got = Fields {
        count: 0,
        values: [0; 7],
    };
    let mut rest = rest_of(line, 2);
    for _ in 0..Fields::MOST {
        let field = read_field(rest, Fields::NUMBER)?;
        let number = u16::try_from(field.number).ok()?;
        got = got.with(number)?;
        match field.next {
            Some(next) => rest = rest_of(rest, next),
            None => return Some(got),
        }
    }
    None
}

// A number where only those below 255 have a meaning: 255 stands for every larger one too.
pub fn up_to_255(v: u16) -> u8
    ensures { result ≡ up_to255 v }
{
    v.min(255) as u8
}
