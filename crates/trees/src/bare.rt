use crate::node::{Node, Operation};

// One node of a tree as it is handed over. The operation is 0 for a leaf, which has its number on the left and nothing on
// the right, 1 for union, 2 for both, 3 for less and 4 for differ; these have the numbers of two other nodes. Any three
// numbers may be handed over, so the operation is a number here.
#[derive(Clone, Copy, PartialEq, Eq, Debug)]
pub struct BareNode {
    pub operation: u16,
    pub left: u16,
    pub right: u16,
}

impl BareNode {
    ghost use Rattle.std.specs.Prelude.{◌≡◌};
    ghost use Rattle.trees.specs.Nodes.{node_from};

    // The node that the numbers stand for, where the operation is 0 to 4; a greater one is taken for differ.
    pub fn node(&self) -> Node
        ensures { result ≡ node_from self.now }
    {
        Node::try_from(*self).unwrap_or(Node::Inner(Operation::Differ, self.left, self.right))
    }
}
