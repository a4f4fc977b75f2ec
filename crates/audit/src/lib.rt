// Soundness of a model and of a configuration, for every value of their types.
//
//   tops       how many variables each listed term asks to be bound
//   programs   programs and their actions
//   listed     machines, locations and listed threads
//   claims     the claim
//   models     the soundness of a model
//   controls   the soundness of a configuration
#![tactic(auto)]

pub mod claims;
pub mod controls;
pub mod listed;
pub mod models;
pub mod programs;
pub mod tops;
