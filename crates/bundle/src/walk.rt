// Walking through a bundle's facts, each declared and above the one before it.
ghost use Rattle.std.specs.Prelude.{◌≡◌};
ghost use Rattle.bundle.specs.Bundle.{ascends, next_fact, facts_from, predicate_known};

use crate::one::fact_at;
use number::{Answer, Fault, Refusal, Side, about};
use rule::Head;
use site::Fact;

// Where the reading of facts stands: the fact before, if there is one, and the next byte.
#[derive(Clone, Copy)]
pub struct Stand {
    pub last: Option<Fact>,
    pub at: usize,
}

// Is a fact above the one before it, if there is one?
pub fn ascends(last: Option<Fact>, fact: Fact) -> bool
    ensures { result ≡ ascends last fact }
{
    match last {
        None => true,
        Some(last) => last < fact,
    }
}

// The fact at a place is read, then judged by its order.
#[tactic(auto, unfolding(crate::specs::Bundle::next_fact))]
fn next_fact(s: &[u8], head: Head, here: Stand) -> Answer<Stand>
    ensures { result ≡ next_fact (predicate_known head) s.now here }
{
    let fact = fact_at(s, head.declared(), here.at)?;
    if !ascends(here.last, fact.value) {
        return Err(Refusal::new(Fault::Order, Side::Bundle, here.at));
    }
    Ok(Stand {
        last: Some(fact.value),
        at: fact.next,
    })
}

// So many facts from a place on: the place after them.
pub fn walk_facts(s: &[u8], head: Head, count: u32, start: usize) -> Answer<usize>
    ensures { result ≡ facts_from (predicate_known head) s.now count start }
{
    let mut here = Stand {
        last: None,
        at: start,
    };
    for i in 0..count {
        here = about(next_fact(s, head, here), i)?;
    }
    Ok(here.at)
}
