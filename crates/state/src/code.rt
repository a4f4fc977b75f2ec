// Step codes: 0 to 11 advance that slot, 16 + 12 s + r hands over from slot s to slot r, 160 + m resets machine m.
// 12 to 15 and 164 upwards are none.
#![tactic(auto, unfolding(crate::specs::Code::way_of, crate::specs::Code::is_code, crate::specs::Code::codes_below, crate::specs::Code::code_from, crate::specs::Code::code_after))]

ghost use Rattle.std.specs.Prelude.{◌≡◌};
ghost use Rattle.state.specs.Code.{way_of, is_code, Below, From, After};

#[derive(Drop)]
pub struct Code {}

impl Code {
    // The first number past all codes: as the next code of a place it means none left. A number and no Option: it goes
    // into the records of a search, and seek_first and code_after speak of it.
    pub const NONE: u16 = 164;
    // How many codes there are.
    pub const ALL: u16 = 160;
}

// Which slots or machine a code moves.
// kept: Nothing is one of four ways, as way_of of specs has it; an Option around the others is no plainer
#[derive(Clone, Copy, PartialEq, Eq)]
pub enum Way {
    Nothing,
    Advance(u8),
    Hand(u8, u8),
    Reset(u8),
}

pub fn way_of(code: u16) -> Way
    ensures { result ≡ way_of code }
{
    match code {
        0..=11 => Way::Advance(code as u8),
        16..=159 => Way::Hand(((code - 16) / 12) as u8, ((code - 16) % 12) as u8),
        160..=163 => Way::Reset((code - 160) as u8),
        _ => Way::Nothing,
    }
}

// It is a code.
pub fn is_code(code: u16) -> bool
    ensures { result ≡ is_code code }
{
    matches!(code, 0..=11 | 16..=163)
}

// How many codes stand below a number.
pub fn codes_below(number: u16) -> u16
    ensures { Below number result }
{
    match number {
        0..=11 => number,
        12..=15 => 12,
        16..=163 => number - 4,
        _ => Code::ALL,
    }
}

// The code with that many codes below it, 164 where there is none.
pub fn code_from(below: u16) -> u16
    ensures { From below result }
{
    match below {
        0..=11 => below,
        12..=159 => below + 4,
        _ => Code::NONE,
    }
}

// The code after a code, 164 after the last one.
pub fn code_after(code: u16) -> u16
    ensures { After code result }
{
    match code {
        0..=10 => code + 1,
        11..=15 => 16,
        16..=162 => code + 1,
        _ => Code::NONE,
    }
}
