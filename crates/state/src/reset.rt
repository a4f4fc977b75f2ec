// Reset, threads and locks: every thread on the machine ends, and every lock on it is freed. A boot thread takes the
// lowest free slot and, if the machine is protected, all its static registers.
#![tactic(auto, using(crate::proofs::Live::zero_free), unfolding(crate::specs::Reset::boot_thread, crate::specs::Reset::slot_reset, crate::specs::Reset::is_on, crate::specs::Reset::lock_reset))]

ghost use Rattle.std.specs.Prelude.{◌≡◌};
ghost use Rattle.state.specs.Reset.{is_on, slot_reset, slots_reset, boot_thread, lock_reset, locks_reset, slots_booted};

use crate::lock::held_by;
use crate::moves::with_slot;
use crate::slot::{Slot, lowest_free, pack_slot, slot_in};
use model::records::{Machine, location_in};

// Every thread on the machine has ended, and a boot thread stands in the lowest free slot.
pub fn slots_booted(slots: &mut [u64; 12], machine: Machine, m: u8, serial: u16)
    ensures { slots.new ≡ slots_booted slots.old machine m serial }
{
    slots_reset(slots, m);
    if let Some(i) = lowest_free(slots) {
        with_slot(slots, i, boot_thread(machine, m, serial));
    }
}

// A boot thread has agent 0.
fn boot_thread(machine: Machine, m: u8, serial: u16) -> u64
    ensures { result ≡ boot_thread machine m serial }
{
    pack_slot(Slot {
        live: true,
        serial,
        agent: 0,
        machine: m,
        program: machine.boot,
        position: 0,
    })
}

fn slots_reset(slots: &mut [u64; 12], m: u8)
    ensures { slots.new ≡ slots_reset slots.old m }
{
    // in place, as an array's map copies and a search resets often
    for n in slots.iter_mut() {
        *n = slot_reset(*n, m);
    }
}

fn slot_reset(n: u64, m: u8) -> u64
    ensures { result ≡ slot_reset m n }
{
    if is_on(n, m) { 0 } else { n }
}

// A live thread on the machine. A slot that is all zero is free: most are, and need not be taken apart.
pub fn is_on(n: u64, m: u8) -> bool
    ensures { result ≡ is_on n m }
{
    if n == 0 {
        return false;
    }
    let s = slot_in(n);
    s.live && s.machine == m
}

pub fn locks_reset(
    locks: &mut [u32; 32],
    locations: &[u32; 32],
    m: u8,
    protected: bool,
    serial: u16,
)
    ensures { locks.new ≡ locks_reset locks.old locations.now m protected serial }
{
    // by number: of what iter_mut zipped with the locations lends a proof knows no element
    for (i, lock) in locks.iter_mut().enumerate() {
        *lock = lock_reset(*lock, locations[i], m, protected, serial);
    }
}

fn lock_reset(lock: u32, location: u32, m: u8, protected: bool, serial: u16) -> u32
    ensures { result ≡ lock_reset m protected serial lock location }
{
    let l = location_in(location);
    if l.machine != m {
        return lock;
    }
    if protected && l.kind == 2 {
        held_by(serial)
    } else {
        0
    }
}
