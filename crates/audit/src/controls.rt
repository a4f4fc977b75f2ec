// The soundness of a configuration: its table begins with the model's, and its threads, locks, values and counters keep
// every rule. For a sound model.
#![tactic(auto, unfolding(crate::specs::Configuration::sound_control, crate::specs::Configuration::table_sound, crate::specs::Configuration::leaf_sound, crate::specs::Configuration::counters_sound, crate::specs::Configuration::slot_sound, crate::specs::Configuration::thread_fits, crate::specs::Configuration::same_serial, crate::specs::Configuration::var_sound, crate::specs::Configuration::is_bound, crate::specs::Configuration::lock_sound, crate::specs::Configuration::value_sound))]

ghost use Rattle.std.specs.Prelude.{◌≡◌, take};
ghost use Rattle.state.specs.FrameSound.{live_on, listed_on};
ghost use Rattle.audit.specs.Configuration.{sound_control, table_sound, begins_with, leaves_sound, leaf_sound, counters_sound, slots_sound, slot_sound, thread_fits, serials_differ, new_serial, same_serial, vars_sound, var_sound, is_bound, locks_sound, lock_sound, values_sound, value_sound, threads_fit, machine_fits};

use crate::listed::stored_value;
use crate::models::names_program;
use model::records::{Model, length_at, thread_in};
use state::control::{Control, Frame};
use state::lock::{lock_in, pack_lock};
use state::reset::is_on;
use state::slot::{Slot, pack_slot, slot_at, slot_in};
use terms::line::{line_at, term_in};
use terms::sound::sound;

pub fn sound_control(m: &Model, t: &[u64; 512], s: &Control) -> bool
    ensures { result ≡ sound_control m.now t.now s.now }
{
    table_sound(m, t, s)
        && counters_sound(&s.frame)
        && slots_sound(m, &s.frame)
        && serials_differ(&s.frame.slots)
        && vars_sound(t, s)
        && locks_sound(m, &s.frame)
        && values_sound(m, t, s)
        && threads_fit(m, &s.frame.slots)
}

fn table_sound(m: &Model, t: &[u64; 512], s: &Control) -> bool
    ensures { result ≡ table_sound m.now t.now s.now.count s.now.frame.nonce }
{
    sound(t, s.count)
        && m.count <= s.count
        && begins_with(t, &m.lines, m.count)
        && leaves_sound(m, t, s)
}

// The first count lines of both tables are the same.
fn begins_with(t: &[u64; 512], lines: &[u64; 512], count: u16) -> bool
    ensures { result ≡ begins_with t.now lines.now count }
{
    (0..count).all(|i| line_at(t, i) == line_at(lines, i))
}

// Code terms name a program, and nonces are below the next.
fn leaves_sound(m: &Model, t: &[u64; 512], s: &Control) -> bool
    ensures { result ≡ leaves_sound t.now s.now.count m.now.programs s.now.frame.nonce }
{
    (0..s.count).all(|i| leaf_sound(line_at(t, i), m.programs, s.frame.nonce))
}

fn leaf_sound(n: u64, programs: u8, nonce: u16) -> bool
    ensures { result ≡ leaf_sound n programs nonce }
{
    let x = term_in(n);
    if x.kind == 7 {
        return x.a < nonce;
    }
    names_program(x, programs)
}

fn counters_sound(f: &Frame) -> bool
    ensures { result ≡ counters_sound f.now }
{
    let steps = u32::from(f.steps);
    f.steps <= Control::STEPS
        && u32::from(f.serial) <= u32::from(Model::THREADS) + steps
        && f.nonce <= f.steps
}

fn slots_sound(m: &Model, f: &Frame) -> bool
    ensures { result ≡ slots_sound f.now.slots f.now.serial m.now.lengths m.now.programs m.now.machine_count }
{
    f.slots.iter().all(|n| slot_sound(m, *n, f.serial))
}

// A free slot is all zero; a live thread is exactly its number.
fn slot_sound(m: &Model, n: u64, serial: u16) -> bool
    ensures { result ≡ slot_sound n serial m.now.lengths m.now.programs m.now.machine_count }
{
    let s = slot_in(n);
    if !s.live {
        return n == 0;
    }
    pack_slot(s) == n && thread_fits(m, s, serial)
}

// A live thread: its serial is below the next, its machine and program are listed, and it stands before its program's end.
fn thread_fits(m: &Model, s: Slot, serial: u16) -> bool
    ensures { result ≡ thread_fits s serial m.now.lengths m.now.programs m.now.machine_count }
{
    s.serial < serial
        && s.machine < m.machine_count
        && s.program < m.programs
        && s.position < length_at(&m.lengths, s.program)
}

// Live threads have different serials.
fn serials_differ(slots: &[u64; 12]) -> bool
    ensures { result ≡ serials_differ slots.now }
{
    (0..Slot::SLOTS).all(|i| new_serial(slots, i))
}

// No earlier slot has a live thread with the serial of this one's.
fn new_serial(slots: &[u64; 12], i: u8) -> bool
    ensures { result ≡ new_serial slots.now i }
{
    (0..i).all(|j| !same_serial(slot_at(slots, j), slot_at(slots, i)))
}

// kept: no equality of the type, since other fields of the two may differ
fn same_serial(p: Slot, q: Slot) -> bool
    ensures { result ≡ same_serial p q }
{
    p.live && q.live && p.serial == q.serial
}

// Exactly the variables of earlier actions are bound.
fn vars_sound(t: &[u64; 512], s: &Control) -> bool
    ensures { result ≡ vars_sound s.now.vars s.now.frame.slots t.now s.now.count }
{
    s.vars.iter().enumerate().all(|(i, v)| {
        let thread = slot_at(&s.frame.slots, (i / 16) as u8);
        var_sound(*v, thread, (i % 16) as u8, t, s.count)
    })
}

fn var_sound(v: u16, s: Slot, k: u8, t: &[u64; 512], count: u16) -> bool
    ensures { result ≡ var_sound v s k t.now count }
{
    if is_bound(s, k) {
        stored_value(t, count, v)
    } else {
        v == 0
    }
}

fn is_bound(s: Slot, k: u8) -> bool
    ensures { result ≡ is_bound s k }
{
    s.live && k < s.position
}

fn locks_sound(m: &Model, f: &Frame) -> bool
    ensures { result ≡ locks_sound f.now.locks f.now.serial m.now.location_count }
{
    let listed = usize::from(m.location_count);
    f.locks
        .iter()
        .enumerate()
        .all(|(i, n)| lock_sound(*n, f.serial, i < listed))
}

fn lock_sound(n: u32, serial: u16, listed: bool) -> bool
    ensures { result ≡ lock_sound n serial listed }
{
    let l = lock_in(n);
    if !l.held {
        return n == 0;
    }
    pack_lock(l) == n && listed && l.serial < serial
}

fn values_sound(m: &Model, t: &[u64; 512], s: &Control) -> bool
    ensures { result ≡ values_sound s.now.values t.now s.now.count m.now.location_count }
{
    let listed = usize::from(m.location_count);
    s.values
        .iter()
        .enumerate()
        .all(|(i, v)| value_sound(*v, t, s.count, i < listed))
}

fn value_sound(v: u16, t: &[u64; 512], count: u16, listed: bool) -> bool
    ensures { result ≡ value_sound v t.now count listed }
{
    if listed {
        stored_value(t, count, v)
    } else {
        v == 0
    }
}

fn threads_fit(m: &Model, slots: &[u64; 12]) -> bool
    ensures { result ≡ threads_fit slots.now m.now.threads m.now.thread_count }
{
    (0..Model::MACHINES).all(|k| machine_fits(m, slots, k))
}

// Live threads of a machine are at most the listed ones, or 1 where none was listed.
fn machine_fits(m: &Model, slots: &[u64; 12], k: u8) -> bool
    ensures { result ≡ machine_fits slots.now m.now.threads m.now.thread_count k }
{
    live_count(slots, k) <= listed_count(m, k).max(1)
}

fn listed_count(m: &Model, k: u8) -> usize
    ensures { result ≡ listed_on k (take m.now.thread_count m.now.threads) }
{
    m.threads
        .iter()
        .take(usize::from(m.thread_count))
        .filter(|n| thread_in(**n).machine == k)
        .count()
}

fn live_count(slots: &[u64; 12], k: u8) -> usize
    ensures { result ≡ live_on k slots.now }
{
    slots.iter().filter(|n| is_on(**n, k)).count()
}
