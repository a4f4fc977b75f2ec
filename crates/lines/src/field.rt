// A line is cut at its LF before a field is read, so no field runs past it. A field reader takes the rest of the line
// and says where the rest after its tab starts.
ghost use Rattle.std.specs.Prelude.{◌≡◌, ◌+◌, ◌*◌, ◌-◌, take, drop};
ghost use Rattle.lines.specs.Base.{byte_at};
ghost use Rattle.lines.specs.Line.{span, cut_line};
ghost use Rattle.lines.specs.Field.{is_digit, well_spelt, number_of, capped, end_by, field_of, opens_with, field_read};

// The decimal that a rest of a line opens with.
#[derive(Clone, Copy)]
pub struct Field {
    pub number: u32,
    // where the rest after its tab starts; none where the decimal ends the line
    pub next: Option<usize>,
}

// No limit passes 32 bits: a number that does is taken for the first one over, so that a sum always fits.
const OVER: u64 = 1 << 32;

// The bytes from a place on; none where the place lies past the end.
pub fn rest_of(s: &[u8], at: usize) -> &[u8]
    ensures { result.now ≡ drop at s.now }
{
    s.get(at..).unwrap_or(&[])
}

// The bytes before a place; all where the place lies past the end.
pub fn front_of(s: &[u8], end: usize) -> &[u8]
    ensures { result.now ≡ take end s.now }
{
    s.get(..end).unwrap_or(s)
}

// The byte at a place, 0 where there is none.
pub fn byte_at(s: &[u8], at: usize) -> u8
    ensures { result ≡ byte_at s.now at }
{
    s.get(at).copied().unwrap_or(0)
}

// Where the first LF stands, if there is one.
pub fn cut_line(s: &[u8]) -> Option<usize>
    ensures { result ≡ cut_line s.now }
{
    s.iter().position(|b| *b == b'\n')
}

// How many digits a rest of a line opens with.
fn digits(s: &[u8]) -> usize
    ensures { result ≡ span is_digit s.now }
{
    s.iter().take_while(|b| b.is_ascii_digit()).count()
}

// One digit more.
fn longer(n: u64, b: u8) -> u64
    ensures { result ≡ capped (n * 10 + (b - 48)) }
{
    let digit = u64::from(b.saturating_sub(b'0'));
    n.saturating_mul(10).saturating_add(digit).min(OVER)
}

// The number that digits spell.
fn value(ds: &[u8]) -> u64
    ensures { result ≡ capped (number_of ds.now) }
{
    ds.iter().fold(0, |v, b| longer(v, *b))
}

// One digit at least, and no zero before another digit.
fn well_spelt(ds: &[u8]) -> bool
    ensures { result ≡ well_spelt ds.now }
{
    match ds {
        [] => false,
        [_] => true,
        [first, ..] => *first != b'0',
    }
}

// What stands behind the n bytes of a decimal: the end of the line, or a tab.
fn behind(s: &[u8], n: usize, number: u32) -> Option<Field>
    ensures { field_read result ≡ end_by number n (drop n s.now) }
{
    match s.get(n) {
        None => Some(Field { number, next: None }),
        Some(b'\t') => Some(Field {
            number,
            next: Some(n + 1),
        }),
        Some(_) => None,
    }
}

// The first field of the rest of a line, if it has the form: a decimal up to most, with no needless zero.
pub fn read_field(s: &[u8], most: u32) -> Option<Field>
    ensures { field_read result ≡ field_of s.now most }
{
    let n = digits(s);
    let ds = front_of(s, n);
    if !well_spelt(ds) {
        return None;
    }
    let number = u32::try_from(value(ds)).ok()?;
    if most < number {
        return None;
    }
    behind(s, n, number)
}

// The line opens with a letter and a tab.
pub fn opens_with(s: &[u8], letter: u8) -> bool
    ensures { result ≡ opens_with s.now letter }
{
    s.starts_with(&[letter, b'\t'])
}
