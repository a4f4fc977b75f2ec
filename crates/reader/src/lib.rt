// The model file: bytes to a model, or a refusal and its line.
//
//   refusal  why a file is refused, and where
//   fields   the numbers of one line
//   draft    what the lines read so far have told, beside the two tables
//   version, term, action, machines, location, thread, claim
//            the records V, E, A, M, L, T, C: the rules of refusal in the order of their numbers, then the entry
//   first    the first reading, line after line
//   second   the second reading: what only later lines tell
//   built    the model, and what stands for that of a refused file
#![tactic(auto)]

ghost use Rattle.std.specs.Prelude.{◌≡◌};
ghost use Rattle.reader.specs.Load.{loaded_in, load_of};

use built::model_of;
use first::{Reading, first_reading};
use model::records::Model;
use refusal::Fault;
use second::second_reading;

pub mod action;
pub mod built;
pub mod claim;
pub mod draft;
pub mod fields;
pub mod first;
pub mod location;
pub mod machines;
pub mod refusal;
pub mod second;
pub mod term;
pub mod thread;
pub mod version;

// Both readings of a file. A refused file gives its refusal and the line, and no model at all: built::or_no_model gives
// the one of zeros for it.
pub fn load(file: &[u8]) -> Result<Model, Fault>
    ensures { loaded_in result ≡ load_of file.now }
{
    let mut r = Reading::fresh();
    first_reading(file, &mut r)?;
    second_reading(&r)?;
    Ok(model_of(&r))
}
