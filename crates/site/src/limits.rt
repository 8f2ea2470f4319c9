// The limits that the kinds hold as constants, side by side, so that the definitions' limits are proved to be the same.
ghost use Rattle.std.specs.Prelude.{◌≡◌};
ghost use Rattle.site.specs.Limits.{most_concepts, most_roles, most_rules, last_kind, functional_kind, most_facts, most_number, most_thing, no_partner};

use crate::fact::Fact;
use crate::nodes::{Concept, Role};
use crate::rule::Rule;

#[derive(Clone, Copy)]
pub struct Limits {
    pub concepts: u32,
    pub roles: u32,
    pub rules: u32,
    pub last_kind: u32,
    pub functional_kind: u32,
    pub facts: usize,
    pub number: u32,
    pub thing: u32,
    pub no_partner: u32,
}

pub fn limits_of_kinds() -> Limits
    ensures { result ≡ record { concepts = most_concepts; roles = most_roles; rules = most_rules; last_kind = last_kind; functional_kind = functional_kind; facts = most_facts; number = most_number; thing = most_thing; no_partner = no_partner } }
{
    Limits {
        concepts: Concept::COUNT,
        roles: Role::COUNT,
        rules: Rule::MOST,
        last_kind: Rule::LAST_KIND,
        functional_kind: Rule::FUNCTIONAL,
        facts: Fact::MOST,
        number: number::MOST,
        thing: number::MOST,
        no_partner: Fact::NO_PARTNER,
    }
}
