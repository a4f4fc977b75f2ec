// What the lines read so far have told: the model without its two large tables, which stand beside it, and what the
// rules of the next line ask.
#![tactic(auto, unfolding(crate::specs::Drafts::no_claim, crate::specs::Drafts::fresh_draft, crate::specs::Drafts::follows_group))]

ghost use Rattle.std.specs.Prelude.{◌≡◌};
ghost use Rattle.reader.specs.Drafts.{no_claim, fresh_draft, follows_group};

use model::records::Claim;
use terms::table::Table;

// kept: no heap here, so each list is an array and its count, as in the model; group and edition are numbers, since a draft that
// is lent may hold any, and the lines' definitions answer for all
#[derive(Clone, Copy)]
pub struct Draft {
    // the group of the last line: 0 before the first, then 1 to 7 for V, E, A, M, L, T, C
    pub group: u8,
    // 0 before the V line
    pub edition: u8,
    // how many terms the table holds, and how many variables each asks to be bound
    pub count: u16,
    pub tops: [u8; 512],
    // how many actions each program has
    pub lengths: [u8; 32],
    pub programs: u8,
    // the last action read is a jump or a late launch, so its program has ended
    // kept: a fact by itself, of which action_order21 of specs speaks
    pub closed: bool,
    pub machines: [u32; 4],
    pub machine_count: u8,
    pub locations: [u32; 32],
    pub location_count: u8,
    pub threads: [u32; 8],
    pub thread_count: u8,
    pub claim: Claim,
}

impl Draft {
    pub const V: u8 = 1;

    pub const E: u8 = 2;

    pub const A: u8 = 3;

    pub const M: u8 = 4;

    pub const L: u8 = 5;

    pub const T: u8 = 6;

    pub const C: u8 = 7;

    // Before the first line: the fixed terms alone.
    pub fn fresh() -> Draft
        ensures { result ≡ fresh_draft }
    {
        let claim = no_claim();
        Draft {
            group: 0,
            edition: 0,
            count: Table::FIXED,
            tops: [0; 512],
            lengths: [0; 32],
            programs: 0,
            closed: false,
            machines: [0; 4],
            machine_count: 0,
            locations: [0; 32],
            location_count: 0,
            threads: [0; 8],
            thread_count: 0,
            claim,
        }
    }
}

pub fn no_claim() -> Claim
    ensures { result ≡ no_claim }
{
    Claim {
        kind: 0,
        program: 0,
        machine: 0,
        path: [0; 4],
        length: 0,
    }
}

// The last line's group is one that this line may follow.
pub fn follows(group: u8, from: u8, to: u8) -> bool
    ensures { result ≡ follows_group group from to }
{
    from <= group && group <= to
}
