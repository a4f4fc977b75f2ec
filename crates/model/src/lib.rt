// What a model file lists, as records.
//
//   records   Model and its records, each as one exact number
//   fields    which ops use loc, x and y, and where a location must be of one kind
#![tactic(auto)]

pub mod fields;
pub mod records;
