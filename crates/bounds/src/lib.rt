// Checked trees with a bound at each node: the first bounds, tightening, covering leaves and the judgement of a cell.
#![tactic(auto)]

mod bounded_node;
mod changes;
mod covering;
mod covering_leaves;
mod first;
mod judging;
mod narrowing;
mod table;
mod tightening;
mod tree;

pub use bounded_node::BoundedNode;
pub use covering_leaves::CoveringLeaves;
pub use tree::BoundedTree;
