// Handing a bundle's facts out as a lent row of records.
ghost use Rattle.records.specs.Rows.{Hands};

use bundle::FactsOf;
use number::Answer;
use records::{Record, decide};

// "The console receives the facts as a lent row of fact records".
pub fn hand_records(rules: &[u8], bundle: &[u8], row: &mut [Record]) -> Answer<usize>
    ensures { Hands rules.now bundle.now row.old result row.new }
{
    let facts = decide(rules, bundle, row.len())?;
    for (i, fact) in FactsOf::new(bundle, facts).enumerate() {
        row[i] = Record::from(fact);
    }
    Ok(facts.count as usize)
}
