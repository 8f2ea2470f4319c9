// The mark and the partner of one fact.
ghost use Rattle.std.specs.Prelude.{◌≡◌};
ghost use Rattle.bundle.specs.Told.{facts_left};
ghost use Rattle.clashes.specs.Types.{itself};
ghost use Rattle.clashes.specs.Judging.{judged};
ghost use Rattle.clashes.specs.Marks.{marked};
ghost use Rattle.clean.specs.Cleaning.{the_facts, follows, lowest};

use crate::cleaning::Cleaning;
use bundle::FactsOf;
use clashes::Judged;
use site::Fact;

impl<'a> Cleaning<'a> {
    // The facts, one after the other.
    pub fn facts(&self) -> FactsOf<'a>
        ensures { facts_left result ≡ the_facts self.now }
    {
        FactsOf::new(self.bundle, self.facts)
    }

    // "the lowest-numbered fact it clashes with". An index may stand behind this contract one day.
    fn lowest_clash(&self, f: Fact) -> Option<usize>
        ensures { result ≡ lowest (follows self.now) (the_facts self.now) f }
    {
        if self.by.is_alone(f) {
            return None;
        }
        self.facts().position(|g| self.by.disputes(f, g))
    }

    // The mark and the partner of one fact.
    pub fn judge(&self, f: Fact) -> Judged
        ensures { result ≡ judged itself (follows self.now) (the_facts self.now) f }
    {
        match self.lowest_clash(f) {
            Some(found) => Judged::Disputed(found as u32),
            None if self.by.is_alone(f) => Judged::Alone,
            None => Judged::Kept,
        }
    }

    // Is a fact kept?
    #[tactic(auto, using(clashes::proofs::OfJudged::judged_kept))]
    pub fn is_kept(&self, f: Fact) -> bool
        ensures { result ≡ marked itself (follows self.now) (the_facts self.now) 0 f }
    {
        self.judge(f) == Judged::Kept
    }
}
