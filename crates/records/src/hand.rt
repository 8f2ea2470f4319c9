// Which facts are handed out of a bundle as a row of records.
ghost use Rattle.std.specs.Prelude.{◌≡◌};
ghost use Rattle.records.specs.Rows.{hand_out};

use bundle::{Facts, open_inputs};
use number::{Answer, Fault, Refusal};

// All of an accepted bundle's, where there is room for them. The order of refusals: rules, bundle, room.
#[tactic(auto, unfolding(crate::specs::Rows::hand_out))]
pub fn decide(rules: &[u8], bundle: &[u8], room: usize) -> Answer<Facts>
    ensures { result ≡ hand_out rules.now bundle.now room }
{
    let facts = open_inputs(rules, bundle)?.facts;
    if room < facts.count as usize {
        return Err(Refusal::of_call(Fault::Room));
    }
    Ok(facts)
}
