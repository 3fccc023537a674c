// Trees of set operations: their nodes as they are handed over, the checks, and the test of one place.
#![tactic(auto)]

mod bare;
mod checks;
mod fault;
mod node;
mod test;

pub use bare::BareNode;
pub use checks::check;
pub use fault::Fault;
pub use node::{MOST_NODES, Node, Operation, UnknownOperation};
pub use test::place_test;
