// Two million lookups in a table of 300 terms, the first places and the last alike, for benchmarks/find.sh to time.
// What it writes is the number of lookups that found their term.
#![tactic(auto)]

use std::io;
use terms::entry::add;
use terms::table::{Table, find};
use terms::term::Term;

fn key(n: u16) -> Term {
    Term {
        kind: 4,
        a: n,
        b: 0,
    }
}

fn main(rt: HostRuntime) -> io::Result<()> {
    let mut table = Table::fresh();
    for n in 0..297u16 {
        if let Ok(added) = add(&mut table.lines, table.count, key(n)) {
            table.count = added.count;
        }
    }
    let mut found = 0u32;
    for i in 0..2000000u32 {
        if find(&table.lines, table.count, key((i % 297) as u16)).is_some() {
            found += 1;
        }
    }
    println!(rt; "{found}")
}
