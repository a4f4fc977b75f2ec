// A slot as one exact number: live * 2^56 + serial * 2^40 + agent * 2^24 +
// machine * 2^16 + program * 2^8 + position. A free slot is all zero; the mark tells a live thread of all zeros from it.
// A mark and no Option: slot_in reads any number, and the definitions and theorems speak of all six fields, also of a
// slot that is free.
#![tactic(auto, using(model::proofs::Places::record_there, model::proofs::Places::bit_is), unfolding(crate::specs::Slot::pack_slot, crate::specs::Slot::slot_in, crate::specs::Slot::slot_at))]

ghost use Rattle.std.specs.Prelude.{◌≡◌};
ghost use Rattle.state.specs.Slot.{pack_slot, slot_in, slot_at, free_slot};

#[derive(Clone, Copy, PartialEq, Eq)]
pub struct Slot {
    pub live: bool,
    pub serial: u16,
    pub agent: u16,
    pub machine: u8,
    pub program: u8,
    pub position: u8,
}

impl Slot {
    pub const SLOTS: u8 = 12;
}

pub fn pack_slot(s: Slot) -> u64
    ensures { result ≡ pack_slot s }
{
    u64::from(s.live) * 72057594037927936
        + u64::from(s.serial) * 1099511627776
        + u64::from(s.agent) * 16777216
        + u64::from(s.machine) * 65536
        + u64::from(s.program) * 256
        + u64::from(s.position)
}

// A number made by pack_slot is read back whole; of any other number the fields are what stands in their places.
pub fn slot_in(n: u64) -> Slot
    ensures { result ≡ slot_in n }
{
    Slot {
        live: n / 72057594037927936 % 2 == 1,
        serial: (n / 1099511627776 % 65536) as u16,
        agent: (n / 16777216 % 65536) as u16,
        machine: (n / 65536 % 256) as u8,
        program: (n / 256 % 256) as u8,
        position: (n % 256) as u8,
    }
}

// The slot at a place, a free one where there is none.
pub fn slot_at(slots: &[u64; 12], i: u8) -> Slot
    ensures { result ≡ slot_at slots.now i }
{
    slot_in(slots.get(usize::from(i)).copied().unwrap_or(0))
}

// The lowest free slot.
pub fn lowest_free(slots: &[u64; 12]) -> Option<u8>
    ensures { result ≡ free_slot slots.now }
{
    let i = slots.iter().position(|n| !slot_in(*n).live)?;
    Some(i as u8)
}
