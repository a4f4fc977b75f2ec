// The rules of a step: what an action asks of the term table, what it does to values and variables, and its event.
//
//   want, work   what an action asks of the table, and how it is met: refusals 8, 9, 10
//   effect       what an action does to locations and variables
//   launch, reset   the same of late launch and reset
//   made         the configuration after a step, made in place
//   event        the event of a step, and its record as flat numbers
//   happened     the event of a step whose work is done
//   inner        one step of a sound configuration
#![tactic(auto)]

pub mod effect;
pub mod event;
pub mod happened;
pub mod inner;
pub mod launch;
pub mod made;
pub mod reset;
pub mod want;
pub mod work;
