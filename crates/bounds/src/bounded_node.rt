use grid::Cell;
use trees::Node;

// A node of a checked tree, with a cell that its set is cut by, or none.
#[derive(Clone, Copy, PartialEq, Eq, Debug)]
pub struct BoundedNode {
    pub node: Node,
    pub bound: Option<Cell>,
}
