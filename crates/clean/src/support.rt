// The lowest-numbered kept fact that supports a question.
ghost use Rattle.std.specs.Prelude.{◌≡◌, ◌&&◌};
ghost use Rattle.clashes.specs.Types.{itself};
ghost use Rattle.clashes.specs.Marks.{marked};
ghost use Rattle.clashes.specs.Coded.{supports_coded, support_in};
ghost use Rattle.clean.specs.Cleaning.{the_facts, follows, below};

use crate::cleaning::Cleaning;
use clashes::{Typ, supports};
use site::Fact;
use tables::Table;

impl Cleaning<'_> {
    // A kept fact that supports.
    fn keeps(&self, included: &Table, asked: Typ, f: Fact) -> bool
        ensures { result ≡ (marked itself (follows self.now) (the_facts self.now) 0 f && supports_coded included.now asked f) }
    {
        supports(included, asked, f) && self.is_kept(f)
    }

    // "yes with the lowest-numbered kept fact", if there is one
    pub fn lowest_support(&self, included: &Table, asked: Typ) -> Option<usize>
        ensures { result ≡ below self.now.facts.count
            (support_in included.now self.now.by.excluded.now self.now.by.functional self.now.bundle.now self.now.facts asked) }
    {
        self.facts().position(|f| self.keeps(included, asked, f))
    }
}
