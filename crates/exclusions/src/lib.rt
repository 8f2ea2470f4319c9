// Exclusions in a table: the written ones go down both sides, and what leads to an empty node is empty.
#![tactic(auto, using(crate::proofs::Lowers::lowers))]

mod spread;

pub use spread::exclude;
