// What follows from a site's rules: tables of bits over the numbers of the nodes.
#![tactic(auto)]

mod filled;
mod says;

pub use filled::Tables;
