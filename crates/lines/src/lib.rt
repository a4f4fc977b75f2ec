// Lines of bytes: fields and decimals read from an input, words and decimals written to an output. This crate depends
// on no other.
//
//   field   a line cut at its LF, and its decimal fields, each handing the rest of the line on
//   tail    where an input's last line starts, and the run of lines at its end that open with one letter
//   goal    a last G line: bound and budget
//   codes   the R lines at the end: one code each
//   put     words and decimals into a lent output buffer
#![tactic(auto)]

pub mod codes;
pub mod field;
pub mod goal;
pub mod put;
pub mod tail;
