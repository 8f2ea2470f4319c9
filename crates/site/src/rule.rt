// A rule, by its kind and its codes.
ghost use Rattle.std.specs.Prelude.{◌≡◌, leb};
ghost use Rattle.site.specs.Codes.{rule_of};
ghost use Rattle.site.specs.Told.{rule_told, kind_number, KindOf};

use crate::nodes::{BasicConcept, BasicRole};

// The kinds of rules, in the order of their numbers, 0 to 4.
#[derive(Clone, Copy, PartialEq, Eq)]
pub enum Kind {
    Included,
    Disjoint,
    RoleIncluded,
    RoleDisjoint,
    Functional,
}

impl Kind {
    // Are its codes basic concepts? Those of the others are basic roles.
    pub fn of_concepts(self) -> bool
        ensures { result ≡ leb (kind_number self) 1 }
    {
        matches!(self, Kind::Included | Kind::Disjoint)
    }
}

// A number that no kind has.
#[derive(Clone, Copy)]
pub struct UnknownKind(pub u32);

impl TryFrom<u32> for Kind {
    type Error = UnknownKind;

    ghost try_from_gives = { KindOf };

    fn try_from(number: u32) -> Result<Self, UnknownKind> {
        match number {
            0 => Ok(Kind::Included),
            1 => Ok(Kind::Disjoint),
            2 => Ok(Kind::RoleIncluded),
            3 => Ok(Kind::RoleDisjoint),
            Rule::LAST_KIND => Ok(Kind::Functional),
            _ => Err(UnknownKind(number)),
        }
    }
}

#[derive(Clone, Copy)]
pub enum Rule {
    Included(BasicConcept, BasicConcept),
    Disjoint(BasicConcept, BasicConcept),
    RoleIncluded(BasicRole, BasicRole),
    RoleDisjoint(BasicRole, BasicRole),
    Functional(BasicRole),
}

impl Rule {
    // "of rules (0 to 512)"
    pub const MOST: u32 = 512;
    // The kind that has one code.
    pub const FUNCTIONAL: u32 = Kind::Functional as u32;
    // Kinds 0 to 4.
    pub const LAST_KIND: u32 = Rule::FUNCTIONAL;

    // The rule of a kind and its codes; a functional rule has one.
    pub fn of_kind(kind: Kind, x: u32, y: u32) -> Rule
        ensures { rule_told result ≡ rule_of (kind_number kind) x y }
    {
        match kind {
            Kind::Included => Rule::Included(BasicConcept::new(x), BasicConcept::new(y)),
            Kind::Disjoint => Rule::Disjoint(BasicConcept::new(x), BasicConcept::new(y)),
            Kind::RoleIncluded => Rule::RoleIncluded(BasicRole::new(x), BasicRole::new(y)),
            Kind::RoleDisjoint => Rule::RoleDisjoint(BasicRole::new(x), BasicRole::new(y)),
            Kind::Functional => Rule::Functional(BasicRole::new(x)),
        }
    }
}
