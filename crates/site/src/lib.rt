// The kinds of document 01 as types by value, with their limits, constructors and codes.
#![tactic(auto)]

mod fact;
mod items;
mod limits;
mod nodes;
mod rule;

pub use fact::Fact;
pub use items::{read_end, read_tested, read_within};
pub use limits::{Limits, limits_of_kinds};
pub use nodes::{BasicConcept, BasicRole, Concept, Declared, HasNode, Role};
pub use rule::{Kind, Rule, UnknownKind};
