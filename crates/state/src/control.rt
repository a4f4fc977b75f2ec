// The configuration beside its term table. The frame has no label in it: threads, locks, counters. Labels stand in
// values and vars alone: the value of each location, and variable k of slot i at 16 i + k.
#![tactic(auto, using(model::proofs::Places::number_there), unfolding(crate::specs::Control::value_at, crate::specs::Control::one_more, crate::specs::Control::fresh_slot, crate::specs::Control::fresh_control, crate::specs::Control::fresh_frame))]

ghost use Rattle.std.specs.Prelude.{◌≡◌};
ghost use Rattle.state.specs.Control.{fresh_slot, fresh_slots, first_values, fresh_control, value_at, one_more};

use crate::slot::{Slot, pack_slot};
use model::records::{Model, location_in, thread_at};
use std::array;

#[derive(Clone, Copy)]
pub struct Frame {
    pub slots: [u64; 12],
    pub locks: [u32; 32],
    // steps made, next serial, next nonce
    pub steps: u16,
    pub serial: u16,
    pub nonce: u16,
}

#[derive(Clone, Copy)]
pub struct Control {
    pub frame: Frame,
    pub values: [u16; 32],
    pub vars: [u16; 192],
    // terms in the table
    pub count: u16,
}

impl Control {
    // No more steps are made than this.
    pub const STEPS: u16 = 60000;

    // Listed thread i in slot i with serial i, all locks free, each location with its first value. Its table is the
    // model's own.
    pub fn fresh(m: &Model) -> Control
        ensures { result ≡ fresh_control m.now }
    {
        Control {
            frame: Frame {
                slots: fresh_slots(&m.threads, m.thread_count),
                locks: [0; 32],
                steps: 0,
                serial: u16::from(m.thread_count),
                nonce: 0,
            },
            values: fresh_values(&m.locations),
            vars: [0; 192],
            count: m.count,
        }
    }
}

fn fresh_slots(threads: &[u32; 8], count: u8) -> [u64; 12]
    ensures { result ≡ fresh_slots threads.now count }
{
    array::from_fn(|i| fresh_slot(threads, count, i))
}

fn fresh_slot(threads: &[u32; 8], count: u8, i: usize) -> u64
    ensures { result ≡ fresh_slot threads.now count i }
{
    if usize::from(count) <= i {
        return 0;
    }
    let l = thread_at(threads, i as u8);
    pack_slot(Slot {
        live: true,
        serial: i as u16,
        agent: l.agent,
        machine: l.machine,
        program: l.program,
        position: 0,
    })
}

fn fresh_values(locations: &[u32; 32]) -> [u16; 32]
    ensures { result ≡ first_values (λ v. v) locations.now }
{
    locations.map(|n| location_in(n).value)
}

// The value of a location, label 0 where there is none.
pub fn value_at(values: &[u16; 32], loc: u16) -> u16
    ensures { result ≡ value_at 0 values.now loc }
{
    values.get(usize::from(loc)).copied().unwrap_or(0)
}

// One more; steps, serials and nonces never come near the end of their type.
// kept: a public promise beside saturating_add, which callers cite by this name
pub fn one_more(n: u16) -> u16
    ensures { result ≡ one_more n }
{
    n.saturating_add(1)
}
