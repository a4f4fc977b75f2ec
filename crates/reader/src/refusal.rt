// Why a file is refused, and at which line.
ghost use Rattle.std.specs.Prelude.{◌≡◌};
ghost use Rattle.reader.specs.Refused.{number_of};
ghost use Rattle.reader.specs.declared.refusal.Refusal.TheVariants.{Limit};

use terms::table::Size;

#[derive(Clone, Copy, PartialEq, Eq)]
pub enum Refusal {
    // a line of bad form
    Form,
    // a line out of its order, or one that is missing
    Order,
    // past a limit
    Limit,
    // a name of what is not listed, or not yet
    Name,
    // the same twice
    Twice,
    // of the wrong kind
    Kind,
    // a file that is too long
    Length,
}

impl Refusal {
    // The number that the programs write.
    pub fn number(self) -> u8
        ensures { result ≡ number_of self }
    {
        match self {
            Refusal::Form => 20,
            Refusal::Order => 21,
            Refusal::Limit => 22,
            Refusal::Name => 23,
            Refusal::Twice => 24,
            Refusal::Kind => 25,
            Refusal::Length => 26,
        }
    }
}

// A term that is too deep, or past the room of the table.
impl From<Size> for Refusal {
    ghost from_gives = { λ _ e. e ≡ Limit };

    fn from(size: Size) -> Refusal {
        match size {
            Size::Deep | Size::Full => Refusal::Limit,
        }
    }
}

// A refusal at a line; line 0 stands for the whole file.
#[derive(Clone, Copy, PartialEq, Eq)]
pub struct Fault {
    pub refusal: Refusal,
    pub line: u32,
}
