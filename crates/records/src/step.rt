// The work of the fact reader, on the bundle's bytes and a place: where it starts, and what one step yields.
ghost use Rattle.std.specs.Prelude.{◌≡◌};
ghost use Rattle.records.specs.Reading.{reader_start, reader_step};

use bundle::{any_fact_at, open_inputs};
use number::Answer;
use site::Fact;

// One step of a reader: the fact that it yields, or that it is done, and its next byte afterwards.
#[derive(Clone, Copy)]
pub struct Step {
    pub yields: Answer<Option<Fact>>,
    pub next: usize,
}

// "It starts on an accepted bundle": at the place after the count.
#[tactic(auto, unfolding(crate::specs::Reading::reader_start))]
pub fn start(rules: &[u8], bundle: &[u8]) -> Answer<usize>
    ensures { result ≡ reader_start rules.now bundle.now }
{
    let inputs = open_inputs(rules, bundle)?;
    Ok(inputs.facts.start)
}

// "At or past the end it is done, and stays done."
#[tactic(auto, unfolding(crate::specs::Reading::reader_step))]
pub fn step_at(bundle: &[u8], at: usize) -> Step
    ensures { result ≡ reader_step bundle.now at }
{
    if bundle.len() <= at {
        return Step {
            yields: Ok(None),
            next: at,
        };
    }
    match any_fact_at(bundle, at) {
        Ok(read) => Step {
            yields: Ok(Some(read.value)),
            next: read.next,
        },
        Err(refusal) => Step {
            yields: Err(refusal),
            next: at,
        },
    }
}
