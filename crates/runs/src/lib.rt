// Steps in a row over a list of codes, and the records of their events.
#![tactic(auto)]

pub mod run;
