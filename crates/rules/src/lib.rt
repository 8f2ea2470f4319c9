// Reading a rule file.
#![tactic(auto)]

mod check;
mod walk;

pub use check::check_rules;
pub use walk::RulesOf;
