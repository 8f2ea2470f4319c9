// Tables of bits over the numbers of the nodes, and their closure.
#![tactic(auto)]

mod bits;
mod closure;
mod listed;
mod row;

pub use bits::{BITS, NODES, Table, WORDS};
pub use listed::Nodes;
pub use row::Row;
