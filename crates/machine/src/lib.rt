// The machine as its callers meet it: what is asked of a model and a configuration is checked first.
//
//   step    one step, or refusal 11
//   claim   the claim judged over the records of a run
//   judge   what the numbers of one event say of a claim
#![tactic(auto)]

pub mod claim;
pub mod judge;
pub mod step;
