// Threads, locks and counters of a configuration, and the codes that move them. No label stands in a frame, so the rules
// on labels and the rules on terms share every definition here.
//
//   slot, lock      a thread in its slot and a lock on its location, each as one exact number
//   control         the frame, the configuration beside its term table, and the fresh one
//   code            step codes decided by ranges, and how many there are
//   refusal         why a code is turned down
//   early           refusals 1 to 7, which only read
//   seek            the next code that those let through
//   moves           what an action does to its thread and to locks
//   launch, reset   what late launch and reset do to threads and locks
//   ended           the programs of threads that ended
#![tactic(auto)]

pub mod code;
pub mod control;
pub mod early;
pub mod ended;
pub mod launch;
pub mod lock;
pub mod moves;
pub mod refusal;
pub mod reset;
pub mod seek;
pub mod slot;
