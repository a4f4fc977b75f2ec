// Words and decimals onto a page: lent bytes, and the place where the next byte goes. A byte that finds the page full is
// dropped, and the place stays. A page keeps the very slice that it was lent (same_bytes), or whoever lent it would know
// nothing of it afterwards.
ghost use Rattle.std.specs.Prelude.{◌≡◌, [], ◌∷◌, take};
ghost use Rattle.lines.specs.Put.{written, seen, put_byte, put_all, word_of, digit_of, decimal, blank_and, refused_line};

use crate::field::front_of;

// The words that open a line of output.
#[derive(Clone, Copy)]
pub enum Word {
    Bad,
    End,
    Stop,
    Ok,
    No,
    Done,
    Refused,
}

impl Word {
    #[tactic(auto, unfolding(crate::specs::Put::word_of))]
    fn bytes(self) -> &'static [u8]
        ensures { result.now ≡ word_of self }
    {
        match self {
            Word::Bad => b"bad",
            Word::End => b"end",
            Word::Stop => b"stop",
            Word::Ok => b"ok",
            Word::No => b"no",
            Word::Done => b"done",
            Word::Refused => b"refused",
        }
    }
}

#[derive(Drop)]
pub struct Page<'a> {
    pub bytes: &'a mut [u8],
    pub next: usize,
}

impl<'a> Page<'a> {
    // What is written.
    pub fn text(&self) -> &[u8]
        ensures { result.now ≡ take self.now.next self.now.bytes.now }
    {
        front_of(self.bytes, self.next)
    }

    pub fn put_byte(&mut self, b: u8)
        ensures written { seen self.new ≡ put_byte b (seen self.old) }
        ensures same_bytes { self.new.bytes.ghost_name ≡ self.old.bytes.ghost_name }
    {
        // kept: a proof knows no element of a slice after its `get_mut`
        if self.next < self.bytes.len() {
            self.bytes[self.next] = b;
            self.next += 1;
        }
    }

    fn put_bytes(&mut self, word: &[u8])
        ensures written { seen self.new ≡ put_all word.now (seen self.old) }
        ensures same_bytes { self.new.bytes.ghost_name ≡ self.old.bytes.ghost_name }
    {
        for b in word {
            self.put_byte(*b);
        }
    }

    pub fn put_word(&mut self, w: Word)
        ensures written { seen self.new ≡ put_all (word_of w) (seen self.old) }
        ensures same_bytes { self.new.bytes.ghost_name ≡ self.old.bytes.ghost_name }
    {
        self.put_bytes(w.bytes());
    }

    // The digits before the last one come first.
    pub fn put_decimal(&mut self, n: u32)
        ensures written { seen self.new ≡ put_all (decimal n) (seen self.old) }
        ensures same_bytes { self.new.bytes.ghost_name ≡ self.old.bytes.ghost_name }
    {
        if n < 10 {
            self.put_byte(digit(n));
        } else {
            self.put_decimal(n / 10);
            self.put_byte(digit(n));
        }
    }

    // A blank, then a decimal: fields are parted by one blank.
    pub fn put_field(&mut self, n: u32)
        ensures written { seen self.new ≡ put_all (blank_and n) (seen self.old) }
        ensures same_bytes { self.new.bytes.ghost_name ≡ self.old.bytes.ghost_name }
    {
        self.put_byte(b' ');
        self.put_decimal(n);
    }

    pub fn put_end(&mut self)
        ensures written { seen self.new ≡ put_all (10 ∷ []) (seen self.old) }
        ensures same_bytes { self.new.bytes.ghost_name ≡ self.old.bytes.ghost_name }
    {
        self.put_byte(b'\n');
    }

    // The whole line of a refusal: its number, and the line that it names.
    pub fn put_refused(&mut self, number: u8, line: u32)
        ensures written { seen self.new ≡ put_all (refused_line number line) (seen self.old) }
        ensures same_bytes { self.new.bytes.ghost_name ≡ self.old.bytes.ghost_name }
    {
        self.put_word(Word::Refused);
        self.put_field(u32::from(number));
        self.put_field(line);
        self.put_end();
    }
}

fn digit(n: u32) -> u8
    ensures { result ≡ digit_of n }
{
    b'0' + (n % 10) as u8
}
