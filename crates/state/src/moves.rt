// What an action does to locks, nonces and its thread. The frame has no label in it; values and variables, plain lists of
// labels, are changed by the crate above.
#![tactic(auto, using(crate::proofs::Laws::put_at), unfolding(crate::specs::Moves::with_at, crate::specs::Moves::with_slot, crate::specs::Moves::locked, crate::specs::Moves::is_last, crate::specs::Moves::moved_on, crate::specs::Moves::jumped_to, crate::specs::Moves::nonce_after))]

ghost use Rattle.std.specs.Prelude.{◌≡◌, set};
ghost use Rattle.state.specs.Moves.{with_slot, locked, Last, moved_on, jumped_to, nonce_after};

use crate::control::one_more;
use crate::lock::held_by;
use crate::slot::{Slot, pack_slot};
use model::records::{Action, length_at};

// Lock takes the location for this thread, unlock frees it.
pub fn locked(locks: &mut [u32; 32], a: Action, serial: u16)
    ensures { locks.new ≡ locked locks.old a serial }
{
    match a.op {
        3 => put(locks, usize::from(a.loc), held_by(serial)),
        4 => put(locks, usize::from(a.loc), 0),
        _ => {}
    }
}

// The element at a place becomes x; where there is no such place all stays as it is.
pub fn put<T: Copy>(xs: &mut [T], i: usize, x: T)
    ensures { xs.new ≡ set xs.old i x }
{
    // kept: of a slice that get_mut lent a proof knows no element
    if i < xs.len() {
        xs[i] = x;
    }
}

pub fn with_slot(slots: &mut [u64; 12], i: u8, n: u64)
    ensures { slots.new ≡ with_slot slots.old i n }
{
    put(slots, usize::from(i), n);
}

// The thread stands before its last action.
pub fn is_last(lengths: &[u8; 32], s: Slot) -> bool
    ensures { Last lengths.now s result }
{
    u16::from(length_at(lengths, s.program)) <= u16::from(s.position) + 1
}

// The number of a slot whose thread has made its action: the next position, or free after the last.
pub fn moved_on(lengths: &[u8; 32], s: Slot) -> u64
    ensures { result ≡ moved_on lengths.now s }
{
    if is_last(lengths, s) {
        return 0;
    }
    pack_slot(Slot {
        live: true,
        position: s.position + 1,
        ..s
    })
}

// A jump: the same thread at the start of another program.
pub fn jumped(s: Slot, program: u8) -> u64
    ensures { result ≡ jumped_to s program }
{
    pack_slot(Slot {
        live: true,
        program,
        position: 0,
        ..s
    })
}

// New takes a number.
pub fn nonce_after(op: u8, nonce: u16) -> u16
    ensures { result ≡ nonce_after op nonce }
{
    if op == 18 { one_more(nonce) } else { nonce }
}
