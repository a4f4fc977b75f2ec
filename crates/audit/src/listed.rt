// The soundness of a model's machines, locations and listed threads: their numbers, each record by what it names, and
// whatever stands past a count zero.
#![tactic(auto, unfolding(crate::specs::Listed::machines_sound, crate::specs::Listed::machine_sound, crate::specs::Listed::locations_sound, crate::specs::Listed::location_sound, crate::specs::Listed::first_fits, crate::specs::Listed::stored_value, crate::specs::Listed::threads_sound, crate::specs::Listed::thread_sound))]

ghost use Rattle.std.specs.Prelude.{◌≡◌};
ghost use Rattle.audit.specs.Listed.{machines_sound, machine_sound, locations_sound, each_location, location_sound, first_fits, stored_value, threads_sound, thread_sound};

use model::fields::is_memory;
use model::records::{
    Location, Model, location_in, machine_in, pack_location, pack_machine, pack_thread, thread_in,
};
use terms::line::{ground_in, line_at};

pub fn machines_sound(m: &Model) -> bool
    ensures { result ≡ machines_sound m.now.machines m.now.machine_count m.now.programs }
{
    let listed = usize::from(m.machine_count);
    (1..=Model::MACHINES).contains(&m.machine_count)
        && m.machines
            .iter()
            .enumerate()
            .all(|(i, n)| machine_sound(*n, i < listed, m.programs))
}

fn machine_sound(n: u32, listed: bool, programs: u8) -> bool
    ensures { result ≡ machine_sound n listed programs }
{
    if !listed {
        return n == 0;
    }
    let m = machine_in(n);
    pack_machine(m) == n && m.boot < programs && m.launch < programs
}

pub fn locations_sound(m: &Model) -> bool
    ensures { result ≡ locations_sound m.now }
{
    m.location_count <= Model::LOCATIONS && each_location(m)
}

fn each_location(m: &Model) -> bool
    ensures { result ≡ each_location m.now.locations m.now.location_count m.now.machine_count m.now.lines m.now.count }
{
    let listed = usize::from(m.location_count);
    m.locations
        .iter()
        .enumerate()
        .all(|(i, n)| location_sound(m, *n, i < listed))
}

fn location_sound(m: &Model, n: u32, listed: bool) -> bool
    ensures { result ≡ location_sound n listed m.now.machine_count m.now.lines m.now.count }
{
    if !listed {
        return n == 0;
    }
    let l = location_in(n);
    pack_location(l) == n
        && l.machine < m.machine_count
        && l.kind < Location::KINDS
        && stored_value(&m.lines, m.count, l.value)
        && first_fits(l.kind, l.value)
}

// A register's first value is sinit.
fn first_fits(kind: u8, value: u16) -> bool
    ensures { result ≡ first_fits kind value }
{
    is_memory(kind) || value == 1
}

// A stored value is the label of a ground term.
pub fn stored_value(t: &[u64; 512], count: u16, label: u16) -> bool
    ensures { result ≡ stored_value t.now count label }
{
    label < count && ground_in(line_at(t, label))
}

pub fn threads_sound(m: &Model) -> bool
    ensures { result ≡ threads_sound m.now.threads m.now.thread_count m.now.machine_count m.now.programs }
{
    let listed = usize::from(m.thread_count);
    m.thread_count <= Model::THREADS
        && m.threads.iter().enumerate().all(|(i, n)| thread_sound(
            *n,
            i < listed,
            m.machine_count,
            m.programs,
        ))
}

fn thread_sound(n: u32, listed: bool, machines: u8, programs: u8) -> bool
    ensures { result ≡ thread_sound n listed machines programs }
{
    if !listed {
        return n == 0;
    }
    let l = thread_in(n);
    pack_thread(l) == n && l.machine < machines && l.program < programs
}
