// A model: programs, machines, locations, listed threads, the claim, and the terms that it lists. Every limit is a
// constant of the record that it bounds.
#![tactic(auto, using(crate::proofs::Places::bit_is, crate::proofs::Places::number_there, crate::proofs::Places::record_there), unfolding(crate::specs::Records::pack_action, crate::specs::Records::action_in, crate::specs::Records::pack_machine, crate::specs::Records::machine_in, crate::specs::Records::pack_location, crate::specs::Records::location_in, crate::specs::Records::pack_thread, crate::specs::Records::thread_in, crate::specs::Records::action_number, crate::specs::Records::action_at, crate::specs::Records::length_at, crate::specs::Records::machine_at, crate::specs::Records::location_at, crate::specs::Records::thread_at))]

ghost use Rattle.std.specs.Prelude.{◌≡◌};
ghost use Rattle.model.specs.Records.{pack_action, action_in, pack_machine, machine_in, pack_location, location_in, pack_thread, thread_in, action_number, action_at, length_at, machine_at, location_at, thread_at};

// A whole model, lent by reference. Its records are packed numbers, read by action_at, machine_at, location_at and thread_at.
// kept: numbers, since the theorems of proofs/Pack and soundness speak of them; ops and kinds too, since a model may hold any
// number in their place; arrays with a count each, since memory is fixed
#[derive(Clone, Copy)]
pub struct Model {
    // 1 for the rules of document 01
    pub edition: u8,
    // the term table as every schedule finds it: the fixed and the listed terms
    pub lines: [u64; 512],
    pub count: u16,
    // action k of program p stands at 16 p + k: op * 2^48 + loc * 2^32 + x * 2^16 + y
    pub actions: [u64; 512],
    // how many actions each program has
    pub lengths: [u8; 32],
    pub programs: u8,
    // boot * 2^16 + launch * 2^8 + protected
    pub machines: [u32; 4],
    pub machine_count: u8,
    // machine * 2^24 + kind * 2^16 + first value
    pub locations: [u32; 32],
    pub location_count: u8,
    // agent * 2^16 + machine * 2^8 + program
    pub threads: [u32; 8],
    pub thread_count: u8,
    pub claim: Claim,
}

#[derive(Clone, Copy)]
pub struct Action {
    pub op: u8,
    pub loc: u16,
    pub x: u16,
    pub y: u16,
}

#[derive(Clone, Copy)]
pub struct Machine {
    pub boot: u8,
    pub launch: u8,
    pub protected: bool,
}

#[derive(Clone, Copy)]
pub struct Location {
    pub machine: u8,
    pub kind: u8,
    pub value: u16,
}

#[derive(Clone, Copy)]
pub struct Listed {
    pub agent: u16,
    pub machine: u8,
    pub program: u8,
}

// Kind 0 (boot) or 1 (launch), a program, a machine, and a path of 1 to 4 programs; places past it are 0.
#[derive(Clone, Copy)]
pub struct Claim {
    pub kind: u8,
    pub program: u8,
    pub machine: u8,
    pub path: [u8; 4],
    pub length: u8,
}

impl Model {
    pub const PROGRAMS: u8 = 32;

    pub const ACTIONS: u8 = 16;

    pub const MACHINES: u8 = 4;

    pub const LOCATIONS: u8 = 32;

    pub const THREADS: u8 = 8;
}

impl Claim {
    // The mark of a thread that has left the path: above every length.
    pub const LEFT: u8 = 255;

    pub const PATH: u8 = 4;

    pub const KINDS: u8 = 2;
}

impl Action {
    pub const OPS: u8 = 21;
}

impl Location {
    pub const KINDS: u8 = 4;
}

// The records as numbers and back. A number made by a pack function is read back whole; of any other number the fields
// are what stands in their places. Kept as functions, no From: docs/PROMISES.md names each of them, and of one u32 three
// records can be read, so that a call by its own name is the plainer one.
pub fn pack_action(a: Action) -> u64
    ensures { result ≡ pack_action a }
{
    u64::from(a.op) * 281474976710656
        + u64::from(a.loc) * 4294967296
        + u64::from(a.x) * 65536
        + u64::from(a.y)
}

pub fn action_in(n: u64) -> Action
    ensures { result ≡ action_in n }
{
    Action {
        op: (n / 281474976710656 % 256) as u8,
        loc: (n / 4294967296 % 65536) as u16,
        x: (n / 65536 % 65536) as u16,
        y: (n % 65536) as u16,
    }
}

pub fn pack_machine(m: Machine) -> u32
    ensures { result ≡ pack_machine m }
{
    u32::from(m.boot) * 65536 + u32::from(m.launch) * 256 + u32::from(m.protected)
}

pub fn machine_in(n: u32) -> Machine
    ensures { result ≡ machine_in n }
{
    Machine {
        boot: (n / 65536 % 256) as u8,
        launch: (n / 256 % 256) as u8,
        protected: n % 256 == 1,
    }
}

pub fn pack_location(l: Location) -> u32
    ensures { result ≡ pack_location l }
{
    u32::from(l.machine) * 16777216 + u32::from(l.kind) * 65536 + u32::from(l.value)
}

pub fn location_in(n: u32) -> Location
    ensures { result ≡ location_in n }
{
    Location {
        machine: (n / 16777216 % 256) as u8,
        kind: (n / 65536 % 256) as u8,
        value: (n % 65536) as u16,
    }
}

pub fn pack_thread(l: Listed) -> u32
    ensures { result ≡ pack_thread l }
{
    u32::from(l.agent) * 65536 + u32::from(l.machine) * 256 + u32::from(l.program)
}

pub fn thread_in(n: u32) -> Listed
    ensures { result ≡ thread_in n }
{
    Listed {
        agent: (n / 65536 % 65536) as u16,
        machine: (n / 256 % 256) as u8,
        program: (n % 256) as u8,
    }
}

// The number of an action, 0 where there is none.
pub fn action_number(actions: &[u64; 512], program: u8, position: u8) -> u64
    ensures { result ≡ action_number actions.now program position }
{
    let i = usize::from(program) * 16 + usize::from(position);
    actions.get(i).copied().unwrap_or(0)
}

// The record at a place, and the one of all zeros where there is none.
pub fn action_at(actions: &[u64; 512], program: u8, position: u8) -> Action
    ensures { result ≡ action_at actions.now program position }
{
    action_in(action_number(actions, program, position))
}

pub fn length_at(lengths: &[u8; 32], program: u8) -> u8
    ensures { result ≡ length_at lengths.now program }
{
    lengths.get(usize::from(program)).copied().unwrap_or(0)
}

pub fn machine_at(machines: &[u32; 4], machine: u8) -> Machine
    ensures { result ≡ machine_at machines.now machine }
{
    machine_in(machines.get(usize::from(machine)).copied().unwrap_or(0))
}

pub fn location_at(locations: &[u32; 32], loc: u16) -> Location
    ensures { result ≡ location_at locations.now loc }
{
    location_in(locations.get(usize::from(loc)).copied().unwrap_or(0))
}

pub fn thread_at(threads: &[u32; 8], i: u8) -> Listed
    ensures { result ≡ thread_at threads.now i }
{
    thread_in(threads.get(usize::from(i)).copied().unwrap_or(0))
}
