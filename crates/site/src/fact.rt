// A fact, and the order of facts.
ghost use Rattle.std.specs.Prelude.{◌≡◌, ◌-◌};
ghost use Rattle.site.specs.Kinds.{of_concept};

use crate::nodes::{Concept, Role};

// "Facts ascend strictly by predicate, then subject, then object": the order of the fields here, and so of `<`, which `less_is_below` says.
#[derive(Clone, Copy, PartialEq, Eq, PartialOrd, Ord)]
pub struct Fact {
    pub predicate: u32,
    pub subject: u32,
    pub object: u32,
}

impl Fact {
    // "number of facts (0 to 4,096)"
    pub const MOST: usize = 4096;
    // "or 65,535 for marks 0 and 1"
    pub const NO_PARTNER: u32 = 65535;

    pub fn new(predicate: u32, subject: u32, object: u32) -> Self
        ensures { result ≡ record { predicate = predicate; subject = subject; object = object } }
    {
        Self {
            predicate,
            subject,
            object,
        }
    }

    // Is it a concept's fact? The others are a role's, and have an object.
    pub fn of_concept(self) -> bool
        ensures { result ≡ of_concept self }
    {
        self.predicate < Concept::COUNT
    }

    // The concept of a concept's fact: "i for concept i".
    pub fn concept(self) -> Concept
        ensures { result ≡ record { number = self.predicate } }
    {
        Concept::new(self.predicate)
    }

    // The role of a role's fact: "64+j for role j".
    pub fn role(self) -> Role
        ensures { result ≡ record { number = self.predicate - 64 } }
    {
        Role::new(self.predicate.saturating_sub(Concept::COUNT))
    }
}
