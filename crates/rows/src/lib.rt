// Rows of records and the reader: the functions over a slice of records, and over a struct that holds a slice.
#![tactic(auto)]

mod handing;
mod reader;
mod row;

pub use handing::hand_records;
pub use reader::{Reader, next};
pub use row::write_records;
