// Facts as records: the record itself, what is handed out of a bundle, and the steps of a reader.
#![tactic(auto)]

mod hand;
mod record;
mod step;

pub use hand::decide;
pub use record::Record;
pub use step::{Step, start, step_at};
