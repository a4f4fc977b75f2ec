// Two million tries of one step, each from the same configuration, for benchmarks/step.sh to time. The byte read says
// which: 0 a code that is refused, 1 a reset, 2 a new, 3 the hash of a pair of two variables. What it writes is the
// number of tries that were permitted.
#![tactic(auto)]

use intake::read_input;
use model::records::{
    Action, Claim, Listed, Machine, Model, pack_action, pack_machine, pack_thread,
};
use rules::inner::try_step;
use state::control::Control;
use std::io;
use terms::entry::add;
use terms::table::{Table, cut};
use terms::term::Term;

fn entered(t: &mut [u64; 512], count: u16, kind: u8, a: u16, b: u16) -> u16 {
    match add(t, count, Term { kind, a, b }) {
        Ok(added) => added.count,
        Err(_) => count,
    }
}

fn action(op: u8, x: u16) -> u64 {
    pack_action(Action {
        op,
        loc: 0,
        x,
        y: 0,
    })
}

fn thread(program: u8) -> u32 {
    pack_thread(Listed {
        agent: 1,
        machine: 0,
        program,
    })
}

// Program 0 is new, new; program 1 is new, new, hash of label 5, new.
fn programs() -> [u64; 512] {
    let mut actions = [0u64; 512];
    actions[0] = action(18, 0);
    actions[1] = action(18, 0);
    actions[16] = action(18, 0);
    actions[17] = action(18, 0);
    actions[18] = action(13, 5);
    actions[19] = action(18, 0);
    actions
}

// Labels 3 and 4 are variables 0 and 1, label 5 their pair.
fn model() -> Model {
    let fresh = Table::fresh();
    let mut lines = fresh.lines;
    let one = entered(&mut lines, fresh.count, 6, 0, 0);
    let two = entered(&mut lines, one, 6, 1, 0);
    let count = entered(&mut lines, two, 9, 3, 4);
    let actions = programs();
    let mut lengths = [0u8; 32];
    lengths[0] = 2;
    lengths[1] = 4;
    let machine = pack_machine(Machine {
        boot: 0,
        launch: 0,
        protected: true,
    });
    let claim = Claim {
        kind: 0,
        program: 0,
        machine: 0,
        path: [0; 4],
        length: 1,
    };
    Model {
        edition: 1,
        lines,
        count,
        actions,
        lengths,
        programs: 2,
        machines: [machine, 0, 0, 0],
        machine_count: 1,
        locations: [0; 32],
        location_count: 0,
        threads: [thread(0), thread(1), 0, 0, 0, 0, 0, 0],
        thread_count: 2,
        claim,
    }
}

fn code_for(byte: u8) -> u16 {
    match byte {
        b'1' => 160,
        b'2' => 0,
        b'3' => 1,
        _ => 12,
    }
}

// Two steps are made first, so that the third action of program 1 comes next.
fn tries(m: &Model, code: u16) -> u32 {
    let mut t = m.lines;
    let mut s = Control::fresh(m);
    let _ = try_step(&mut t, &mut s, m, 1);
    let _ = try_step(&mut t, &mut s, m, 1);
    let mut sum = 0u32;
    for i in 0..2000000u32 {
        let mut after = s;
        let permitted = try_step(&mut t, &mut after, m, code).is_ok();
        cut(&mut t, s.count, after.count);
        sum += u32::from(permitted);
    }
    sum
}

fn main(rt: HostRuntime) -> io::Result<()> {
    let mut byte = [0u8; 1];
    read_input(&rt, &mut byte)?;
    let sum = tries(&model(), code_for(byte[0]));
    println!(rt; "{sum}")
}
