// Marking a bundle, counting its marks, and asking about one fact.
ghost use Rattle.std.specs.Prelude.{◌≡◌};
ghost use Rattle.clean.specs.Operations.{counting, asking};
ghost use Rattle.operations.specs.Promises.{MarksAll};

use crate::files::Files;
use bundle::FactsOf;
use clashes::{Counts, Judged};
use follows::Tables;
use number::{Answer, Fault, Refusal};

impl Files<'_> {
    fn mark(&self, marks: &mut [u8], partners: &mut [u16]) -> Answer<Counts>
        ensures { MarksAll self.now.rules.now self.now.bundle.now marks.old partners.old result marks.new partners.new }
    {
        let count = self.inputs.facts.count as usize;
        if marks.len() < count || partners.len() < count {
            return Err(Refusal::of_call(Fault::Room));
        }
        let mut tables = Tables::empty();
        tables.fill(self.rules, self.inputs.head);
        Ok(self.cleaning(&tables).mark(marks, partners))
    }

    fn count(&self) -> Counts
        ensures { Ok result ≡ counting self.now.rules.now self.now.bundle.now }
    {
        let mut tables = Tables::empty();
        tables.fill(self.rules, self.inputs.head);
        self.cleaning(&tables).count()
    }

    fn ask(&self, number: u64) -> Answer<Judged>
        ensures { result ≡ asking self.now.rules.now self.now.bundle.now number }
    {
        // a number past the count is refused before any fact is read again
        if number >= self.inputs.facts.count as u64 {
            return Err(Refusal::of_call(Fault::NoFact));
        }
        let fact = FactsOf::new(self.bundle, self.inputs.facts)
            .nth(number as usize)
            .ok_or(Refusal::of_call(Fault::NoFact))?;
        let mut tables = Tables::empty();
        tables.fill(self.rules, self.inputs.head);
        Ok(self.cleaning(&tables).judge(fact))
    }
}

// The marks and partners of a bundle's facts, into lent rows, and their counts.
pub fn mark_bundle(
    rules: &[u8],
    bundle: &[u8],
    marks: &mut [u8],
    partners: &mut [u16],
) -> Answer<Counts>
    ensures { MarksAll rules.now bundle.now marks.old partners.old result marks.new partners.new }
{
    Files::open(rules, bundle)?.mark(marks, partners)
}

// The counts alone.
pub fn count_bundle(rules: &[u8], bundle: &[u8]) -> Answer<Counts>
    ensures { result ≡ counting rules.now bundle.now }
{
    Ok(Files::open(rules, bundle)?.count())
}

// "Asking about one fact number gives its mark and partner."
pub fn ask_fact(rules: &[u8], bundle: &[u8], number: u64) -> Answer<Judged>
    ensures { result ≡ asking rules.now bundle.now number }
{
    Files::open(rules, bundle)?.ask(number)
}
