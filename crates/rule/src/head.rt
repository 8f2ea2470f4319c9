// The head of a rule file: how many concepts and roles it declares, how many rules follow, and where they start.
ghost use Rattle.std.specs.Prelude.{◌≡◌};
ghost use Rattle.site.specs.Told.{kind_number};
ghost use Rattle.rule.specs.OneRule.{head_of, code_declared};

use number::{Answer, Fault, Side};
use site::{Concept, Declared, Kind, Role, Rule, read_within};

#[derive(Clone, Copy)]
pub struct Head {
    pub concepts: u32,
    pub roles: u32,
    pub rules: u32,
    pub start: usize,
}

impl Head {
    // What it declares.
    pub fn declared(self) -> Declared
        ensures { result ≡ record { concepts = self.concepts; roles = self.roles } }
    {
        Declared {
            concepts: self.concepts,
            roles: self.roles,
        }
    }

    // Is a code declared that a rule of this kind has?
    #[tactic(auto, unfolding(crate::specs::OneRule::code_declared))]
    pub fn has_code(self, kind: Kind, code: u32) -> bool
        ensures { result ≡ code_declared self (kind_number kind) code }
    {
        if kind.of_concepts() {
            self.declared().has_concept(code)
        } else {
            self.declared().has_role(code)
        }
    }
}

#[tactic(auto, unfolding(crate::specs::OneRule::head_of))]
pub fn read_head(s: &[u8]) -> Answer<Head>
    ensures { result ≡ head_of s.now }
{
    let first = read_within(s, 0, Concept::COUNT, Fault::Count, Side::Rules);
    let Ok(concepts) = first else {
        return Err(first.unwrap_err());
    };
    let second = read_within(s, concepts.next, Role::COUNT, Fault::Count, Side::Rules);
    let Ok(roles) = second else {
        return Err(second.unwrap_err());
    };
    let third = read_within(s, roles.next, Rule::MOST, Fault::Count, Side::Rules);
    let Ok(rules) = third else {
        return Err(third.unwrap_err());
    };
    Ok(Head {
        concepts: concepts.value,
        roles: roles.value,
        rules: rules.value,
        start: rules.next,
    })
}
