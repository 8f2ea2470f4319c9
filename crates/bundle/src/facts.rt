// The facts of a bundle: what its head says of them, and each of them in turn.
ghost use Rattle.std.specs.Prelude.{◌≡◌};
ghost use Rattle.std.specs.Iterator.{YieldsFirst, item_count};
ghost use Rattle.bundle.specs.Bundle.{facts_of};
ghost use Rattle.bundle.specs.Told.{facts_left};

use crate::one::any_fact_at;
use number::Read;
use site::Fact;

// What a bundle's head says: how many facts follow, and where they start.
#[derive(Clone, Copy)]
pub struct Facts {
    pub count: u32,
    pub start: usize,
}

// The facts from a place on, as far as they can be read.
#[derive(Drop)]
pub struct FactsOf<'a> {
    pub bytes: &'a [u8],
    pub left: u32,
    pub at: usize,
}

impl<'a> FactsOf<'a> {
    // All facts that a head promises.
    pub fn new(bytes: &'a [u8], facts: Facts) -> Self
        ensures { facts_left result ≡ facts_of bytes.now facts }
    {
        Self {
            bytes,
            left: facts.count,
            at: facts.start,
        }
    }
}

impl<'a> Iterator for FactsOf<'a> {
    type Item = Fact;

    ghost next_gives = { YieldsFirst facts_left };

    ghost remaining = { item_count facts_left };

    // Marking holds each fact against every fact: in its loop a step is to be no call.
    #[inline(always)]
    fn next(&mut self) -> Option<Fact> {
        if self.left == 0 {
            return None;
        }
        match any_fact_at(self.bytes, self.at) {
            Err(_) => None,
            Ok(Read { value, next }) => {
                self.left -= 1;
                self.at = next;
                Some(value)
            }
        }
    }
}
