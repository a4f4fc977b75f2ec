// The search: a walk in dictionary order over all schedules up to a bound, from a place, within a budget.
//
//   place    a schedule and the next code to try
//   answer   what a search answers
//   turn     one turn of the walk: codes refused at sight are passed together, then one code is tried
//   plain    the tests by which all codes of a schedule are passed at once
//   ahead    one turn over the configurations of all shorter schedules, and the longer schedule that it enters
//   enter    a place entered by making the steps of its schedule
//   search   the first bad schedule from a place; the bad schedules from a place, as many as lent room takes
#![tactic(auto)]

pub mod ahead;
pub mod answer;
pub mod enter;
pub mod place;
pub mod plain;
pub mod search;
pub mod turn;
