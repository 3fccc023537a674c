use crate::bounded_node::BoundedNode;
use trees::MOST_NODES;

// The nodes of a tree in order, and how many of them there are; slots behind them are never written.
// An array with a count: the libraries have no heap, trees are copied, and what a tree keeps is for the struct around it.
#[derive(Clone, Copy, Debug)]
pub(crate) struct NodeTable {
    pub(crate) nodes: [BoundedNode; MOST_NODES],
    pub(crate) count: usize,
}

impl NodeTable {
    ghost use Rattle.std.specs.Prelude.{◌≡◌, ◌≤◌};
    ghost use Rattle.bounds.specs.Tables.{entries};

    // The nodes that the table has.
    pub(crate) fn entries(&self) -> &[BoundedNode]
        requires { self.now.count ≤ 127 }
        ensures { result.now ≡ entries self.now }
    {
        &self.nodes[..self.count]
    }
}
