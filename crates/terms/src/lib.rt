// Terms, and the table that gives each of them one label.
//
//   term    a term as one line: its kind and fields, and which fields are parts, numbers or unused
//   line    a line of the table as one exact number, with the term's depth and whether it is ground
//   table   the lent table: fresh, find, add, cut back, free entries
//   grade   how deep a new term would be, and whether it would be ground
//   subbed  a substitution's answer
//   entry   a term entered as such an answer
//   subst   a thread's values put for variables, down the parts of a term
//   sound   the soundness of a table, for every array of numbers
#![tactic(auto)]

pub mod entry;
pub mod grade;
pub mod line;
pub mod sound;
pub mod subbed;
pub mod subst;
pub mod table;
pub mod term;
