// The soundness of a model's programs: their number and lengths, each action by itself and by what it names, and no two
// programs alike.
#![tactic(auto, unfolding(crate::specs::Programs::programs_sound, crate::specs::Programs::program_sound, crate::specs::Programs::length_fits, crate::specs::Programs::action_sound, crate::specs::Programs::action_fits, crate::specs::Programs::last_if_closing, crate::specs::Programs::loc_fits, crate::specs::Programs::listed_and_fits, crate::specs::Programs::operand_fits, crate::specs::Programs::equal_programs))]

ghost use Rattle.std.specs.Prelude.{◌≡◌};
ghost use Rattle.audit.specs.Programs.{programs_sound, each_program, program_sound, length_fits, actions_sound, action_sound, action_fits, last_if_closing, loc_fits, listed_and_fits, operand_fits, programs_differ, new_program, equal_programs, equal_actions};

use crate::tops::{top_at, tops};
use model::fields::{closes, in_form, kind_fits, names_location};
use model::records::{
    Action, Model, action_in, action_number, length_at, location_at, pack_action,
};

pub fn programs_sound(m: &Model) -> bool
    ensures { result ≡ programs_sound m.now }
{
    (1..=Model::PROGRAMS).contains(&m.programs)
        && each_program(m, &tops(&m.lines))
        && programs_differ(m)
}

fn each_program(m: &Model, known: &[u8; 512]) -> bool
    ensures { result ≡ each_program m.now known.now }
{
    (0..Model::PROGRAMS).all(|p| program_sound(m, known, p))
}

fn program_sound(m: &Model, known: &[u8; 512], p: u8) -> bool
    ensures { result ≡ program_sound m.now known.now p }
{
    let length = length_at(&m.lengths, p);
    length_fits(p, length, m.programs) && actions_sound(m, known, p, length)
}

// A listed program has 1 to 16 actions, one past the number of programs none.
fn length_fits(p: u8, length: u8, programs: u8) -> bool
    ensures { result ≡ length_fits p length programs }
{
    if p < programs {
        (1..=Model::ACTIONS).contains(&length)
    } else {
        length == 0
    }
}

fn actions_sound(m: &Model, known: &[u8; 512], p: u8, length: u8) -> bool
    ensures { result ≡ actions_sound m.now.actions m.now.locations known.now p length m.now.location_count m.now.count }
{
    (0..Model::ACTIONS).all(|k| action_sound(m, known, action_number(&m.actions, p, k), k, length))
}

// Action k of a program of that length; past it the number is 0.
fn action_sound(m: &Model, known: &[u8; 512], n: u64, k: u8, length: u8) -> bool
    ensures { result ≡ action_sound n m.now.locations known.now k length m.now.location_count m.now.count }
{
    if length <= k {
        return n == 0;
    }
    let a = action_in(n);
    pack_action(a) == n && last_if_closing(a.op, k, length) && action_fits(m, known, a, k)
}

// No action follows a jump or a late launch.
fn last_if_closing(op: u8, k: u8, length: u8) -> bool
    ensures { result ≡ last_if_closing op k length }
{
    !closes(op) || u16::from(k) + 1 == u16::from(length)
}

// Action k, by its form and by what its fields name.
fn action_fits(m: &Model, known: &[u8; 512], a: Action, k: u8) -> bool
    ensures { result ≡ action_fits a m.now.locations known.now k m.now.location_count m.now.count }
{
    in_form(a)
        && loc_fits(m, a)
        && operand_fits(known, a.x, k, m.count)
        && operand_fits(known, a.y, k, m.count)
}

// Where the loc field names a location, it is listed and of a kind that fits.
fn loc_fits(m: &Model, a: Action) -> bool
    ensures { result ≡ loc_fits m.now.locations a m.now.location_count }
{
    !names_location(a.op) || listed_and_fits(m, a)
}

fn listed_and_fits(m: &Model, a: Action) -> bool
    ensures { result ≡ listed_and_fits m.now.locations a m.now.location_count }
{
    a.loc < u16::from(m.location_count) && kind_fits(a.op, location_at(&m.locations, a.loc).kind)
}

// A listed term with no variable of the same or a later action.
fn operand_fits(known: &[u8; 512], label: u16, k: u8, count: u16) -> bool
    ensures { result ≡ operand_fits known.now label k count }
{
    label < count && top_at(known, label) <= k
}

// No two programs have equal actions.
fn programs_differ(m: &Model) -> bool
    ensures { result ≡ programs_differ m.now.actions m.now.lengths m.now.programs }
{
    (0..m.programs).all(|p| new_program(&m.actions, &m.lengths, p))
}

// No earlier program has equal actions. The reader asks it before a model is whole, so it takes the two arrays.
pub fn new_program(actions: &[u64; 512], lengths: &[u8; 32], p: u8) -> bool
    ensures { result ≡ new_program actions.now lengths.now p }
{
    (0..p).all(|q| !equal_programs(actions, lengths, q, p))
}

// A number of all zeros is an action too, so the lengths are compared first.
fn equal_programs(actions: &[u64; 512], lengths: &[u8; 32], q: u8, p: u8) -> bool
    ensures { result ≡ equal_programs actions.now lengths.now q p }
{
    length_at(lengths, q) == length_at(lengths, p) && equal_actions(actions, q, p)
}

// Place by place, since a program past the last one reads as all zeros and has no part of the array.
fn equal_actions(actions: &[u64; 512], q: u8, p: u8) -> bool
    ensures { result ≡ equal_actions actions.now q p }
{
    (0..Model::ACTIONS).all(|k| action_number(actions, q, k) == action_number(actions, p, k))
}
