// The first bounds of a tree.
use crate::bounded_node::BoundedNode;
use crate::table::NodeTable;
use grid::Cell;
use pattern::Bank;
use trees::{BareNode, MOST_NODES, Node};

// What first bounds are made from: the bank of a tree, and the workspace.
#[derive(Clone, Copy)]
pub(crate) struct FirstBounds<'a, B> {
    pub(crate) bank: &'a B,
    pub(crate) workspace: Cell,
}

impl<'a, B: Bank> FirstBounds<'a, B> {
    ghost use Rattle.std.specs.Prelude.{◌≡◌, ◌≤◌, length};
    ghost use Rattle.trees.specs.Nodes.{node_from};
    ghost use Rattle.bounds.specs.Tables.{entries};
    ghost use Rattle.bounds.specs.First.{first_bound, first_node, first_bounds};

    // The first bound of a node.
    fn bound(&self, node: Node) -> Option<Cell>
        ensures { result ≡ first_bound (B.Bank.meaning self.now.bank.now) self.now.workspace node }
    {
        match node {
            Node::Leaf(leaf) => self.bank.bound(leaf)?.cut(self.workspace),
            Node::Inner(..) => Some(self.workspace),
        }
    }

    // A node with its first bound.
    fn node(&self, bare: BareNode) -> BoundedNode
        ensures { result ≡ first_node (B.Bank.meaning self.now.bank.now) self.now.workspace (node_from bare) }
    {
        let node = bare.node();
        BoundedNode {
            node,
            bound: self.bound(node),
        }
    }

    // The nodes with their first bounds.
    pub(crate) fn table(&self, nodes: &[BareNode]) -> NodeTable
        requires { length nodes.now ≤ 127 }
        ensures is { entries result ≡ first_bounds (B.Bank.meaning self.now.bank.now) self.now.workspace nodes.now }
        ensures count { result.count ≡ length nodes.now }
    {
        let blank = BoundedNode {
            node: Node::Leaf(0),
            bound: None,
        };
        let mut table = NodeTable {
            nodes: [blank; MOST_NODES],
            count: nodes.len(),
        };
        // Written by number: behind `iter_mut().zip(..)` the check knows no values, and what the closure of an
        // `array::from_fn` answers at each number stayed open.
        for (number, bare) in nodes.iter().enumerate() {
            table.nodes[number] = self.node(*bare);
        }
        table
    }
}
