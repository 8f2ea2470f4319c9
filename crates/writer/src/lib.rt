// Writing a bundle from facts: the bytes of a fact, and a row of records judged and written as a bundle.
#![tactic(auto)]

mod judge;
mod record;
mod store;
mod write;

pub use record::HasFact;
pub use store::{fact_size, put_number, write_fact};
pub use write::write_facts;
