// The tables of a rule file, from its bytes.
ghost use Rattle.rules.specs.RuleFile.{site_of};
ghost use Rattle.site.specs.Told.{rule_told};
ghost use Rattle.steps.specs.Tables.{arrows_of};
ghost use Rattle.follows.specs.Adding.{AddedAll, exclusions_of, FunctionalAdded};
ghost use Rattle.follows.specs.Tells.{Blank, Empty, TellsAll};

use crate::says::{add_arrows, add_exclusions, add_functional, add_rings};
use exclusions::exclude;
use rule::Head;
use rules::RulesOf;
use site::Rule;
use tables::Table;

// What is included, what is excluded, and the functional basic roles, a bit for each.
#[derive(Drop)]
pub struct Tables {
    pub included: Table,
    pub excluded: Table,
    pub functional: u64,
}

impl Tables {
    // Those of no rules.
    pub fn empty() -> Self
        ensures { Empty result }
    {
        Self {
            included: Table::blank(),
            excluded: Table::blank(),
            functional: 0,
        }
    }

    // One rule more: its arrows, its written exclusions, its functional role.
    fn take_in(&mut self, on: &mut Table, rule: Rule)
        ensures arrows { AddedAll (arrows_of (rule_told rule)) self.old.included self.new.included }
        ensures onward { AddedAll (arrows_of (rule_told rule)) on.old on.new }
        ensures exclusions { AddedAll (exclusions_of (rule_told rule)) self.old.excluded self.new.excluded }
        ensures functionals { FunctionalAdded (rule_told rule) self.old.functional self.new.functional }
    {
        add_arrows(&mut self.included, rule);
        add_arrows(on, rule);
        add_exclusions(&mut self.excluded, rule);
        self.functional = add_functional(self.functional, rule);
    }

    // Blank tables come to say what follows from the rules of an accepted file.
    pub fn fill(&mut self, s: &[u8], head: Head)
        requires included { Blank self.old.included }
        requires excluded { Blank self.old.excluded }
        ensures { TellsAll (site_of s.now head) self.new }
    {
        let d = head.declared();
        let mut on = Table::blank();
        self.functional = 0;
        for rule in RulesOf::new(s, head) {
            self.take_in(&mut on, rule);
        }
        add_rings(&mut on, d);
        self.included.close(d);
        on.close(d);
        exclude(&mut self.excluded, &self.included, &on, d);
    }
}
