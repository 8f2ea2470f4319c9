// What the operations answer, by value.
ghost use Rattle.std.specs.Prelude.{◌≡◌};
ghost use Rattle.clashes.specs.Tally.{tallied, Small};
ghost use Rattle.clashes.specs.Judging.{mark_of, partner_of, judged_so};

use site::Fact;

// "Asking about one fact number gives its mark and partner": a disputed fact's is the lowest-numbered fact it clashes with.
#[derive(Clone, Copy, PartialEq, Eq)]
pub enum Judged {
    Kept,
    Alone,
    Disputed(u32),
}

impl Judged {
    // What a mark and a partner say, as rows of them hold them.
    pub fn new(mark: u32, partner: u32) -> Self
        ensures { result ≡ judged_so mark partner }
    {
        match mark {
            0 => Judged::Kept,
            1 => Judged::Alone,
            _ => Judged::Disputed(partner),
        }
    }

    // "0 kept, 1 alone, 2 disputed"
    pub fn mark(self) -> u32
        ensures { result ≡ mark_of self }
    {
        match self {
            Judged::Kept => 0,
            Judged::Alone => 1,
            Judged::Disputed(_) => 2,
        }
    }

    // The partner, "or 65,535 for marks 0 and 1".
    pub fn partner(self) -> u32
        ensures { result ≡ partner_of self }
    {
        match self {
            Judged::Kept => Fact::NO_PARTNER,
            Judged::Alone => Fact::NO_PARTNER,
            Judged::Disputed(partner) => partner,
        }
    }
}

// "Counts: of facts, and of each mark"; the default is that of no facts.
#[derive(Clone, Copy, Default)]
pub struct Counts {
    pub facts: u32,
    pub kept: u32,
    pub alone: u32,
    pub disputed: u32,
}

impl Counts {
    // The counts with one fact more, of this mark ("0 kept, 1 alone, 2 disputed"); a number that is no mark counts only among the facts.
    #[tactic(auto, unfolding(crate::specs::Tally::one_if))]
    pub fn with(self, mark: u32) -> Counts
        requires { Small self }
        ensures { result ≡ tallied self mark }
    {
        let mut counts = self;
        counts.facts += 1;
        match mark {
            0 => counts.kept += 1,
            1 => counts.alone += 1,
            2 => counts.disputed += 1,
            _ => {}
        }
        counts
    }
}
