// Blocks and slopes, and shapes that are either.
#![tactic(auto)]

mod block;
mod shape;
mod slope;

pub use block::Block;
pub use shape::Shape;
pub use slope::Slope;
