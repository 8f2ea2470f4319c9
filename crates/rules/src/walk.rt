// The rules of a file, one after the other, as far as they can be read.
ghost use Rattle.std.specs.Prelude.{◌≡◌};
ghost use Rattle.std.specs.Iterator.{YieldsFirstBy, item_count};
ghost use Rattle.site.specs.Told.{rule_told};
ghost use Rattle.rules.specs.RuleFile.{rules_in};
ghost use Rattle.rules.specs.Told.{rules_left};

use rule::{Head, rule_at};
use site::Rule;

#[derive(Drop)]
pub struct RulesOf<'a> {
    pub bytes: &'a [u8],
    pub head: Head,
    pub left: u32,
    pub at: usize,
}

impl<'a> RulesOf<'a> {
    // All rules that a head promises.
    pub fn new(bytes: &'a [u8], head: Head) -> Self
        ensures { rules_left result ≡ rules_in head bytes.now head.rules head.start }
    {
        Self {
            bytes,
            head,
            left: head.rules,
            at: head.start,
        }
    }
}

impl<'a> Iterator for RulesOf<'a> {
    type Item = Rule;

    ghost next_gives = { YieldsFirstBy rule_told rules_left };

    ghost remaining = { item_count rules_left };

    fn next(&mut self) -> Option<Rule> {
        if self.left == 0 {
            return None;
        }
        match rule_at(self.bytes, self.head, self.at) {
            Err(_) => None,
            Ok(read) => {
                self.left -= 1;
                self.at = read.next;
                Some(read.value)
            }
        }
    }
}
