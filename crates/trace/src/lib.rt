// The events of a run as structs in a lent table, and the claim judged over them.
//
//   event     one event as a struct, and what it says of a claim
//   table     one event of a lent table read, or stored
//   judge     one thread followed along the claim's path
//   verdict   the claim judged over the events of a lent table
//   claim     the records of a run judged so: what other crates call
#![tactic(auto)]

pub mod claim;
pub mod event;
pub mod judge;
pub mod table;
pub mod verdict;
