// The next code that refusals 1 to 7 let through. It only reads what it is lent of a configuration, and passes codes that
// are refused alike together: the hand-overs from a slot that is empty or does not send.
#![tactic(auto, unfolding(crate::specs::Seek::sends, crate::specs::Seek::silent_from, crate::specs::Seek::refused_from))]

ghost use Rattle.std.specs.Prelude.{◌≡◌};
ghost use Rattle.state.specs.Early.{sight_of};
ghost use Rattle.state.specs.Seek.{seek_from, sends, NextSender, Silent, Refused};

use crate::code::Code;
use crate::control::Frame;
use crate::early::{early, next_action};
use crate::slot::{Slot, slot_at};
use model::records::Model;

pub fn seek(f: &Frame, m: &Model, from: u16) -> u16
    ensures { result ≡ seek_from (sight_of f.now m.now.actions m.now.locations m.now.machine_count) from }
{
    let mut code = from;
    // a while, since it passes whole rows
    while code < Code::NONE {
        let n = refused_from(f, m, code);
        if n == 0 {
            return code;
        }
        code += n;
    }
    Code::NONE
}

// How many numbers from this one on are refused at sight: 0 where this one is let through.
fn refused_from(f: &Frame, m: &Model, code: u16) -> u16
    ensures { Refused (sight_of f.now m.now.actions m.now.locations m.now.machine_count) code result }
{
    let row = silent_from(&f.slots, &m.actions, code);
    if 0 < row {
        return row;
    }
    match early(f, m, code) {
        Ok(()) => 0,
        Err(_) => 1,
    }
}

// The rest of the row of hand-overs, and the rows after it, whose senders are empty or do not send; 0 where this row's does.
fn silent_from(slots: &[u64; 12], actions: &[u64; 512], code: u16) -> u16
    ensures { Silent slots.now actions.now code result }
{
    if !(16..160).contains(&code) {
        return 0;
    }
    let sender = ((code - 16) / 12) as u8;
    let i = next_sender(slots, actions, sender);
    if i <= sender {
        return 0;
    }
    16 + 12 * u16::from(i) - code
}

// The first slot from this one on that sends, 12 where none does.
fn next_sender(slots: &[u64; 12], actions: &[u64; 512], from: u8) -> u8
    ensures { NextSender slots.now actions.now from result }
{
    (from..Slot::SLOTS)
        .find(|i| sends(slots, actions, *i))
        .unwrap_or(Slot::SLOTS)
}

fn sends(slots: &[u64; 12], actions: &[u64; 512], i: u8) -> bool
    ensures { result ≡ sends slots.now actions.now i }
{
    let s = slot_at(slots, i);
    s.live && next_action(actions, s).op == 5
}
