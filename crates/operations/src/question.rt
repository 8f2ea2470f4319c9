// The two simple questions.
ghost use Rattle.std.specs.Prelude.{◌≡◌};
ghost use Rattle.clean.specs.Operations.{having, joining};
ghost use Rattle.operations.specs.Promises.{RepliesTo};

use crate::files::Files;
use clashes::Typ;
use follows::Tables;
use number::{Answer, Fault, MOST, Refusal};
use site::{BasicConcept, BasicRole};

impl Files<'_> {
    // The tables are filled, and the facts gone through.
    fn reply(&self, asked: Typ) -> Option<u32>
        ensures { RepliesTo self.now.rules.now self.now.inputs.head self.now.bundle.now self.now.inputs.facts asked result }
    {
        let mut tables = Tables::empty();
        tables.fill(self.rules, self.inputs.head);
        let found = self
            .cleaning(&tables)
            .lowest_support(&tables.included, asked)?;
        Some(found as u32)
    }

    fn has(&self, code: u64, thing: u64) -> Answer<Option<u32>>
        ensures { result ≡ having self.now.rules.now self.now.bundle.now code thing }
    {
        let declared = self.inputs.head.declared();
        if code >= BasicConcept::COUNT as u64 || !declared.has_concept(code as u32) {
            return Err(Refusal::of_call(Fault::Unknown));
        }
        if thing > MOST as u64 {
            return Err(Refusal::of_call(Fault::Over));
        }
        Ok(self.reply(Typ {
            node: code as usize,
            from: thing as u32,
            to: thing as u32,
        }))
    }

    fn joins(&self, code: u64, from: u64, to: u64) -> Answer<Option<u32>>
        ensures { result ≡ joining self.now.rules.now self.now.bundle.now code from to }
    {
        let declared = self.inputs.head.declared();
        if code >= BasicRole::COUNT as u64 || !declared.has_role(code as u32) {
            return Err(Refusal::of_call(Fault::Unknown));
        }
        if from > MOST as u64 || to > MOST as u64 {
            return Err(Refusal::of_call(Fault::Over));
        }
        Ok(self.reply(Typ {
            node: BasicConcept::COUNT as usize + code as usize,
            from: from as u32,
            to: to as u32,
        }))
    }
}

// "B of a"
pub fn has_concept(rules: &[u8], bundle: &[u8], code: u64, thing: u64) -> Answer<Option<u32>>
    ensures { result ≡ having rules.now bundle.now code thing }
{
    Files::open(rules, bundle)?.has(code, thing)
}

// "q from a to b"
pub fn joins_things(
    rules: &[u8],
    bundle: &[u8],
    code: u64,
    from: u64,
    to: u64,
) -> Answer<Option<u32>>
    ensures { result ≡ joining rules.now bundle.now code from to }
{
    Files::open(rules, bundle)?.joins(code, from, to)
}
