// Late launch, threads and locks: the thread ends, and in its slot a new one runs the machine's launch program. The
// machine's dynamic registers are locked by the new thread, whoever held them. All other locks stay.
#![tactic(auto, unfolding(crate::specs::Launch::thread_launched, crate::specs::Launch::lock_launched, crate::specs::Launch::is_dynamic))]

ghost use Rattle.std.specs.Prelude.{◌≡◌};
ghost use Rattle.state.specs.Launch.{is_dynamic, thread_launched, lock_launched, locks_launched};

use crate::lock::held_by;
use crate::slot::{Slot, pack_slot};
use model::records::{location_in, machine_at};

// The new thread keeps the agent and the machine of the one it replaces.
pub fn thread_launched(machines: &[u32; 4], q: Slot, serial: u16) -> u64
    ensures { result ≡ thread_launched machines.now q serial }
{
    pack_slot(Slot {
        live: true,
        serial,
        program: machine_at(machines, q.machine).launch,
        position: 0,
        ..q
    })
}

pub fn locks_launched(locks: &mut [u32; 32], locations: &[u32; 32], m: u8, serial: u16)
    ensures { locks.new ≡ locks_launched locks.old locations.now m serial }
{
    // by number: of what iter_mut zipped with the locations lends a proof knows no element
    for (i, lock) in locks.iter_mut().enumerate() {
        *lock = lock_launched(*lock, locations[i], m, serial);
    }
}

fn lock_launched(lock: u32, location: u32, m: u8, serial: u16) -> u32
    ensures { result ≡ lock_launched m serial lock location }
{
    if is_dynamic(location, m) {
        held_by(serial)
    } else {
        lock
    }
}

// A dynamic register of the machine.
pub fn is_dynamic(location: u32, m: u8) -> bool
    ensures { result ≡ is_dynamic location m }
{
    let l = location_in(location);
    l.machine == m && l.kind == 3
}
