// Why a code is turned down, each reason with the number that the scope document gives it.
ghost use Rattle.std.specs.Prelude.{◌≡◌};
ghost use Rattle.state.specs.Refusal.{number_of, refusal_of};

use terms::table::Size;

#[derive(Clone, Copy, PartialEq, Eq)]
pub enum Refusal {
    // 1: it is no code
    NoCode,
    // 2: the slot is empty, or there is no such machine
    Nobody,
    // 3: sender and receiver are one slot
    OneSlot,
    // 4: as many steps are made as a schedule may have
    StepsMade,
    // 5: the next action is not the one that this code moves
    OtherAction,
    // 6: the location is on another machine
    Elsewhere,
    // 7: locked by another thread, or an unlock of a lock not held
    LockedOut,
    // 8: the term would be too deep
    TooDeep,
    // 9: the term table is full
    NoRoom,
    // 10: an operand is not of the form that the action needs
    Unfit,
    // 11: the model or the configuration is not sound
    Unsound,
    // 12: the table of records is full
    RecordsFull,
}

impl Refusal {
    // The number that the scope document and the printed replies give it.
    pub fn number(self) -> u8
        ensures { result ≡ number_of self }
    {
        match self {
            Refusal::NoCode => 1,
            Refusal::Nobody => 2,
            Refusal::OneSlot => 3,
            Refusal::StepsMade => 4,
            Refusal::OtherAction => 5,
            Refusal::Elsewhere => 6,
            Refusal::LockedOut => 7,
            Refusal::TooDeep => 8,
            Refusal::NoRoom => 9,
            Refusal::Unfit => 10,
            Refusal::Unsound => 11,
            Refusal::RecordsFull => 12,
        }
    }
}

// A term that cannot be entered.
impl From<Size> for Refusal {
    ghost from_gives = { λ size r. r ≡ refusal_of size };

    fn from(size: Size) -> Refusal {
        match size {
            Size::Deep => Refusal::TooDeep,
            Size::Full => Refusal::NoRoom,
        }
    }
}
