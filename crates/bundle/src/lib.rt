// Reading a bundle of facts.
#![tactic(auto)]

mod check;
mod facts;
mod one;
mod open;
mod walk;

pub use check::check_bundle;
pub use facts::{Facts, FactsOf};
pub use one::{any_fact_at, fact_at};
pub use open::{Inputs, open_inputs};
pub use walk::{Stand, ascends};
