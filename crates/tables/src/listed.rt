// The declared nodes by their numbers: concepts, then "some partner", then roles.
ghost use Rattle.std.specs.Prelude.{◌≡◌};
ghost use Rattle.std.specs.Iterator.{YieldsFirst, item_count};
ghost use Rattle.tables.specs.Listed.{nodes_of};

use site::{BasicConcept, BasicRole, Declared};
use std::marker::Model;
use std::ops::Range;

// Those that are left, and seen as the list of them.
#[derive(Drop)]
pub struct Nodes {
    concepts: Range<usize>,
    partners: Range<usize>,
    roles: Range<usize>,
}

impl Model for Nodes {
    ghost use Rattle.std.specs.Prelude.{ℕ, ◌++◌, List};
    ghost use Rattle.tables.specs.Listed.{numbers};

    ghost Value = { List ℕ };

    ghost view = { λ n. numbers n.concepts.start n.concepts.end ++ (numbers n.partners.start n.partners.end ++ numbers n.roles.start n.roles.end) };
}

impl Iterator for Nodes {
    type Item = usize;

    ghost next_gives = { YieldsFirst (λ rest. rest) };

    ghost remaining = { item_count (λ rest. rest) };

    #[tactic(auto, using(crate::proofs::Numbers::numbers_first, crate::proofs::Numbers::numbers_none))]
    #[inline(always)]
    fn next(&mut self) -> Option<usize> {
        if let Some(x) = self.concepts.next() {
            return Some(x);
        }
        if let Some(x) = self.partners.next() {
            return Some(x);
        }
        self.roles.next()
    }
}

impl Nodes {
    // All of them.
    #[tactic(auto, unfolding(crate::specs::Listed::nodes_of))]
    pub fn of(d: Declared) -> Self
        ensures { result ≡ nodes_of d.concepts d.roles }
    {
        let partner = BasicRole::COUNT as usize;
        let role = BasicConcept::COUNT as usize;
        let roles = 2 * d.roles as usize;
        Nodes {
            concepts: 0..d.concepts as usize,
            partners: partner..partner + roles,
            roles: role..role + roles,
        }
    }
}
