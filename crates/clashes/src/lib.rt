// The types of facts, which facts are alone and which two contradict each other, by the tables; and marks, partners and counts as they are defined.
#![tactic(auto)]

mod answers;
mod clash;
mod types;

pub use answers::{Counts, Judged};
pub use clash::{Clashes, related, supports};
pub use types::{Typ, Types};
