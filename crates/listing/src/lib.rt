// The program's listing, as bytes in a lent line: the counts, one fact, a refusal, and which of them each line of the listing is.
#![tactic(auto)]

mod lines;
mod listing;
mod put;

pub use lines::{ROOM, counts_line, fact_line, refusal_line};
pub use listing::{count_lines, write_line};
