// One number of document 01: reading it at a place, writing it at a place, and the size of its form.
#![tactic(auto)]

mod read;
mod refusal;
mod write;

pub use read::{MOST, Read, read_number};
pub use refusal::{Answer, Fault, Refusal, Side, about};
pub use write::{THREE_BYTES, size_of_number, write_number};
