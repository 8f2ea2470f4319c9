// "rules, then bundle": both read, or the first refusal.
ghost use Rattle.std.specs.Prelude.{◌≡◌};
ghost use Rattle.bundle.specs.Opened.{opening};

use crate::check::check_bundle;
use crate::facts::Facts;
use number::Answer;
use rule::Head;
use rules::check_rules;

// What accepted rules and an accepted bundle say of themselves.
#[derive(Clone, Copy)]
pub struct Inputs {
    pub head: Head,
    pub facts: Facts,
}

#[tactic(auto, unfolding(crate::specs::Opened::opening))]
pub fn open_inputs(rules: &[u8], bundle: &[u8]) -> Answer<Inputs>
    ensures { result ≡ opening rules.now bundle.now }
{
    let head = check_rules(rules)?;
    let facts = check_bundle(bundle, head)?;
    Ok(Inputs { head, facts })
}
