// Judging records: each one's fault, and the first record that has one.
ghost use Rattle.std.specs.Prelude.{◌≡◌, map};
ghost use Rattle.writer.specs.Records.{within, record_fault, records_from};

use crate::record::HasFact;
use bundle::ascends;
use number::{Answer, Fault, MOST, Refusal, Side};
use rule::Head;
use site::Fact;

// The fault of a record, if it has one, after the one before it, by what the head says.
#[tactic(auto, unfolding(crate::specs::Records::record_fault))]
fn record_fault(head: Head, last: Option<Fact>, fact: Fact) -> Option<Fault>
    ensures { result ≡ record_fault head last fact }
{
    if !head.declared().has_predicate(fact.predicate) {
        return Some(Fault::Unknown);
    }
    if fact.of_concept() && fact.object != 0 {
        return Some(Fault::Object);
    }
    if MOST < fact.subject || MOST < fact.object {
        return Some(Fault::Over);
    }
    if !ascends(last, fact) {
        return Some(Fault::Order);
    }
    None
}

// The same under any head: a caller's may say any number of roles, and a predicate over every number is unknown all the same.
#[tactic(auto, using(crate::proofs::Judging::faults))]
fn fault_of(head: Head, last: Option<Fact>, fact: Fact) -> Option<Fault>
    ensures { result ≡ record_fault (within head) last fact }
{
    if MOST < fact.predicate {
        return Some(Fault::Unknown);
    }
    record_fault(head, last, fact)
}

// How many records there are, or the first fault, at its record's number.
pub fn judge_records<R: HasFact>(head: Head, records: &[R]) -> Answer<usize>
    ensures { result ≡ records_from (within head) None 0 (map R.fact_of records.now) }
{
    let mut last = None;
    for (i, record) in records.iter().enumerate() {
        let fact = record.fact();
        if let Some(fault) = fault_of(head, last, fact) {
            return Err(Refusal::new(fault, Side::Call, i));
        }
        last = Some(fact);
    }
    Ok(records.len())
}
