// The model of a file, and the model that is all zero.
#![tactic(auto, unfolding(crate::specs::Load::no_model, crate::specs::Load::model_of, crate::specs::Load::refused_with))]

ghost use Rattle.std.specs.Prelude.{◌≡◌};
ghost use Rattle.reader.specs.Load.{no_model, model_of, loaded_in};

use crate::draft::no_claim;
use crate::first::Reading;
use crate::refusal::Fault;
use model::records::Model;

// What stands for a refused file.
pub fn no_model() -> Model
    ensures { result ≡ no_model }
{
    let claim = no_claim();
    Model {
        edition: 0,
        lines: [0; 512],
        count: 0,
        actions: [0; 512],
        lengths: [0; 32],
        programs: 0,
        machines: [0; 4],
        machine_count: 0,
        locations: [0; 32],
        location_count: 0,
        threads: [0; 8],
        thread_count: 0,
        claim,
    }
}

// For one who wants a model whatever the file: where it is refused, the one that is all zero.
pub fn or_no_model(answer: Result<Model, Fault>) -> Model
    ensures { result ≡ (loaded_in answer).model }
{
    answer.unwrap_or_else(|_| no_model())
}

// The model of a file whose every line was good.
pub fn model_of(r: &Reading) -> Model
    ensures { result ≡ model_of r.now.terms r.now.actions r.now.draft }
{
    let d = &r.draft;
    Model {
        edition: d.edition,
        lines: r.terms,
        count: d.count,
        actions: r.actions,
        lengths: d.lengths,
        programs: d.programs,
        machines: d.machines,
        machine_count: d.machine_count,
        locations: d.locations,
        location_count: d.location_count,
        threads: d.threads,
        thread_count: d.thread_count,
        claim: d.claim,
    }
}
