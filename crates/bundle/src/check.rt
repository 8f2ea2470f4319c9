// Reading a whole bundle: its count, its facts, and nothing after them.
ghost use Rattle.std.specs.Prelude.{◌≡◌};
ghost use Rattle.bundle.specs.Bundle.{check_bundle};

use crate::facts::Facts;
use crate::walk::walk_facts;
use number::{Answer, Fault, Side};
use rule::Head;
use site::{Fact, read_end, read_within};

#[tactic(auto, unfolding(crate::specs::Bundle::check_bundle))]
pub fn check_bundle(s: &[u8], head: Head) -> Answer<Facts>
    ensures { result ≡ check_bundle head s.now }
{
    let count = read_within(s, 0, Fact::MOST as u32, Fault::Count, Side::Bundle)?;
    let end = walk_facts(s, head, count.value, count.next)?;
    read_end(s, end, Side::Bundle)?;
    Ok(Facts {
        count: count.value,
        start: count.next,
    })
}
