// When nothing can come of any code tried in a configuration but a plain refusal or a step that breaks nothing: no thread
// can end the claim's program by its next step, and no operand or result can be too deep or lack room. The search passes
// all codes of such a configuration at once where it would enter nothing from it.
//
//   ends     nobody stands before the last action of the claim's program
//   depths   how deep terms are, and operands can become
//   quiet    both together: the tests by which all codes are passed
#![tactic(auto)]

pub mod depths;
pub mod ends;
pub mod quiet;
