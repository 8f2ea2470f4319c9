// "rules, then bundle": both accepted, and what facts are judged by.
ghost use Rattle.std.specs.Prelude.{◌≡◌, IfOk, IfErr};
ghost use Rattle.bundle.specs.Opened.{opening};

use crate::files::Files;
use bundle::open_inputs;
use clashes::Clashes;
use clean::Cleaning;
use follows::Tables;
use number::Answer;

impl<'a> Files<'a> {
    pub fn open(rules: &'a [u8], bundle: &'a [u8]) -> Answer<Self>
        ensures same { IfOk result (λ f. (f.rules.now ≡ rules.now) × (f.bundle.now ≡ bundle.now)) }
        ensures refused { IfErr result (λ r. opening rules.now bundle.now ≡ Err r) }
    {
        let inputs = open_inputs(rules, bundle)?;
        Ok(Self {
            rules,
            bundle,
            inputs,
        })
    }

    // The facts, to be judged by what follows.
    pub fn cleaning<'t>(&'t self, tables: &'t Tables) -> Cleaning<'t>
        ensures bundle { result.bundle.now ≡ self.now.bundle.now }
        ensures facts { result.facts ≡ self.now.inputs.facts }
        ensures excluded { result.by.excluded.now ≡ tables.now.excluded }
        ensures functional { result.by.functional ≡ tables.now.functional }
    {
        Cleaning {
            bundle: self.bundle,
            facts: self.inputs.facts,
            by: Clashes {
                excluded: &tables.excluded,
                functional: tables.functional,
            },
        }
    }
}
