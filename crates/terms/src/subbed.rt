// A substitution's answer: the label of the term, or why it has none, and the count of the terms then in the table.
ghost use Rattle.std.specs.Prelude.{◌≡◌};
ghost use Rattle.terms.specs.Subbed.{Label, got_of, got_in, subbed, subbed_in};

use crate::table::Size;

// label + count * 2^16 + mark * 2^32. Mark 0 says that there is a label, 1 that the term is too deep, 2 that there is no
// room for it; without a label its place is 0.
// kept: in one number. A `Result` beside a count goes through memory at each level of the recursion: 70 % slower.
#[derive(Clone, Copy)]
pub struct Subbed {
    bits: u64,
}

impl Subbed {
    pub fn listed(label: u16, count: u16) -> Subbed
        ensures { subbed_in result.bits ≡ subbed (Label label) count }
    {
        Subbed {
            bits: u64::from(count) * 65536 + u64::from(label),
        }
    }

    pub fn refused(size: Size, count: u16) -> Subbed
        ensures { subbed_in result.bits ≡ subbed (got_of size) count }
    {
        match size {
            Size::Deep => Subbed {
                bits: 4294967296 + u64::from(count) * 65536,
            },
            Size::Full => Subbed {
                bits: 8589934592 + u64::from(count) * 65536,
            },
        }
    }

    pub fn label(self) -> Result<u16, Size>
        ensures { got_in result ≡ (subbed_in self.bits).got }
    {
        if self.bits < 4294967296 {
            Ok((self.bits % 65536) as u16)
        } else if self.bits < 8589934592 {
            Err(Size::Deep)
        } else {
            Err(Size::Full)
        }
    }

    pub fn count(self) -> u16
        ensures { result ≡ (subbed_in self.bits).count }
    {
        (self.bits / 65536 % 65536) as u16
    }
}
