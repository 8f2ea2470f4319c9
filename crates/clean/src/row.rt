// Marks and partners of all facts, into lent rows, and the counts.
ghost use Rattle.std.specs.Prelude.{◌≡◌, ◌≤◌, length};
ghost use Rattle.clashes.specs.Types.{itself};
ghost use Rattle.clashes.specs.Marks.{counts};
ghost use Rattle.clashes.specs.Tally.{Marks};
ghost use Rattle.clean.specs.Cleaning.{the_facts, follows};

use crate::cleaning::Cleaning;
use clashes::Counts;

impl Cleaning<'_> {
    // "each the number of facts with that property"
    pub fn count(&self) -> Counts
        ensures { result ≡ counts itself (follows self.now) (the_facts self.now) }
    {
        let mut tally = Counts::default();
        for f in self.facts() {
            tally = tally.with(self.judge(f).mark());
        }
        tally
    }

    // "Marks, one byte a fact (..). Partners, one 16-bit number a fact"
    pub fn mark(&self, marks: &mut [u8], partners: &mut [u16]) -> Counts
        requires marks { self.now.facts.count ≤ length marks.old }
        requires partners { self.now.facts.count ≤ length partners.old }
        ensures { Marks (follows self.now) (the_facts self.now) marks.old partners.old result marks.new partners.new }
    {
        let mut tally = Counts::default();
        for (i, f) in self.facts().enumerate() {
            let judged = self.judge(f);
            marks[i] = judged.mark() as u8;
            partners[i] = judged.partner() as u16;
            tally = tally.with(judged.mark());
        }
        tally
    }
}
