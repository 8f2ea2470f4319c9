// Cleaning the facts of a bundle by tables of what follows: marks, partners, counts, one fact, support for a question, and the kept facts.
#![tactic(auto)]

mod cleaning;
mod judge;
mod keep;
mod measure;
mod row;
mod support;

pub use cleaning::Cleaning;
pub use measure::Measure;
