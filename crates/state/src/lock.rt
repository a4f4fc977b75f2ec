// A lock as one exact number: held * 2^16 + the serial of the thread that holds it. The mark is needed, as serial 0 is
// a real holder; the holder is named by its serial and not by its slot, and may have ended. A mark and no Option, as in a
// slot: lock_in reads any number, and the definitions and theorems speak of both fields.
#![tactic(auto, using(model::proofs::Places::record_there, model::proofs::Places::bit_is), unfolding(crate::specs::Lock::pack_lock, crate::specs::Lock::lock_in, crate::specs::Lock::lock_at, crate::specs::Lock::held_by, crate::specs::Lock::bars_to, crate::specs::Lock::is_held_by))]

ghost use Rattle.std.specs.Prelude.{◌≡◌};
ghost use Rattle.state.specs.Lock.{pack_lock, lock_in, lock_at, held_by, bars_to, is_held_by};

#[derive(Clone, Copy, PartialEq, Eq)]
pub struct Lock {
    pub held: bool,
    pub serial: u16,
}

pub fn pack_lock(l: Lock) -> u32
    ensures { result ≡ pack_lock l }
{
    u32::from(l.held) * 65536 + u32::from(l.serial)
}

// A number made by pack_lock is read back whole; of any other number the fields are what stands in their places.
pub fn lock_in(n: u32) -> Lock
    ensures { result ≡ lock_in n }
{
    Lock {
        held: n / 65536 % 2 == 1,
        serial: (n % 65536) as u16,
    }
}

// The lock at a location, a free one where there is none.
pub fn lock_at(locks: &[u32; 32], loc: u16) -> Lock
    ensures { result ≡ lock_at locks.now loc }
{
    lock_in(locks.get(usize::from(loc)).copied().unwrap_or(0))
}

// The number of a lock held by a thread.
pub fn held_by(serial: u16) -> u32
    ensures { result ≡ held_by serial }
{
    pack_lock(Lock { held: true, serial })
}

// Held by another thread.
pub fn bars(l: Lock, serial: u16) -> bool
    ensures { result ≡ bars_to l serial }
{
    l.held && l.serial != serial
}

// Held by this thread.
pub fn is_held_by(l: Lock, serial: u16) -> bool
    ensures { result ≡ is_held_by l serial }
{
    l.held && l.serial == serial
}
