// The soundness of a table, for every array of numbers and every count: between 3 and 512 terms, the fixed ones first,
// each of a known kind with its unused fields 0 and its parts earlier, none deeper than 16, its depth and ground mark
// right, no two alike, and every line past the count zero.
#![tactic(auto, using(crate::proofs::Laws::new_is), unfolding(crate::specs::Sound::sound_test, crate::specs::Sound::fixed_first, crate::specs::Sound::line_sound))]

ghost use Rattle.std.specs.Prelude.{◌≡◌, drop};
ghost use Rattle.terms.specs.Each.{each};
ghost use Rattle.terms.specs.Sound.{sound_test, fixed_first, line_sound, all_zero};

use crate::grade::grade_of;
use crate::line::{line_at, pack, term_in};
use crate::table::{Table, find_line, fixed_line};
use crate::term::{Term, in_limits, parts_below};

pub fn sound(t: &[u64; 512], count: u16) -> bool
    ensures { result ≡ sound_test t.now count }
{
    Table::FIXED <= count
        && count <= Table::TERMS
        && fixed_first(t)
        && lines_sound(t, count)
        && zero_past(t, count)
}

fn fixed_first(t: &[u64; 512]) -> bool
    ensures { result ≡ fixed_first t.now }
{
    line_at(t, 0) == fixed_line(0)
        && line_at(t, 1) == fixed_line(1)
        && line_at(t, 2) == fixed_line(2)
}

fn lines_sound(t: &[u64; 512], count: u16) -> bool
    ensures { result ≡ each count (line_sound t.now) }
{
    (0..count).all(|i| line_sound(t, i))
}

// The line at a label, judged by the lines before it.
fn line_sound(t: &[u64; 512], label: u16) -> bool
    ensures { result ≡ line_sound t.now label }
{
    let n = line_at(t, label);
    let x = term_in(n);
    if !in_limits(x) || !parts_below(x, label) {
        return false;
    }
    let g = grade_of(t, x);
    g.depth <= Term::DEPTH && pack(x, g) == n && find_line(t, 0, label, n).is_none()
}

fn zero_past(t: &[u64; 512], count: u16) -> bool
    ensures { result ≡ all_zero (drop count t.now) }
{
    t.iter().skip(usize::from(count)).all(|n| *n == 0)
}
