// The operations on rules and a bundle: marking, counting, asking, the two questions, and writing the kept facts.
#![tactic(auto)]

mod files;
mod kept;
mod mark;
mod open;
mod question;

pub use kept::write_kept;
pub use mark::{ask_fact, count_bundle, mark_bundle};
pub use question::{has_concept, joins_things};
