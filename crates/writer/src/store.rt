// The bytes of one fact: how many they are, and storing them where there is room.
#![tactic(auto, using(crate::proofs::FactBytes::storing))]

ghost use Rattle.std.specs.Prelude.{◌≡◌, length};
ghost use Rattle.number.specs.Told.{Stores, Stored};
ghost use Rattle.bundle.specs.Bundle.{fact_bytes};
ghost use Rattle.writer.specs.Stored.{StoresFact, StoredFact};

use number::{THREE_BYTES, size_of_number, write_number};
use site::Fact;

// How many bytes a fact has.
pub fn fact_size(fact: Fact) -> usize
    ensures { result ≡ length (fact_bytes fact) }
{
    let predicate = size_of_number(fact.predicate);
    let subject = size_of_number(fact.subject);
    if fact.of_concept() {
        return predicate + subject;
    }
    predicate + subject + size_of_number(fact.object)
}

// A number's bytes, stored where there is room for them: the place after them.
pub fn put_number(out: &mut [u8], at: usize, value: u32) -> usize
    requires { Stores out.old at value }
    ensures { Stored out.old at value result out.new }
{
    write_number(out, at, value, THREE_BYTES).unwrap_or(at)
}

// A fact's bytes, stored where there is room for them: the place after them.
pub fn write_fact(out: &mut [u8], at: usize, fact: Fact) -> usize
    requires { StoresFact out.old at fact }
    ensures { StoredFact out.old at fact result out.new }
{
    let p = put_number(out, at, fact.predicate);
    let q = put_number(out, p, fact.subject);
    if fact.of_concept() {
        return q;
    }
    put_number(out, q, fact.object)
}
