// The head of a rule file, and one rule at a place.
#![tactic(auto)]

mod head;
mod read;

pub use head::{Head, read_head};
pub use read::rule_at;
