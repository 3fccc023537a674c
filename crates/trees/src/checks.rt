// The checks of a tree: of the number of its nodes, then of each node, then of the parents.
ghost use Rattle.std.specs.Prelude.{◌≡◌, ◌-◌, ◌<◌, ◌≤◌, length};
ghost use Rattle.trees.specs.Nodes.{nodes_from, times_named};
ghost use Rattle.trees.specs.Faults.{told};
ghost use Rattle.trees.specs.Checks.{node_fault, node_faults, parent_fault, parent_faults, tree_fault, answered, CheckLaw};

use crate::bare::BareNode;
use crate::fault::Fault;
use crate::node::{MOST_NODES, Node};
use pattern::Pattern;

// Refuses the node at a number, over a pattern of so many leaves, if it is at fault.
fn check_node(leaves: u16, number: u16, bare: BareNode) -> Result<(), Fault>
    ensures { told result ≡ answered (node_fault leaves number bare) tt }
{
    match Node::try_from(bare).map_err(|_| Fault::UnknownOperation(number))? {
        Node::Leaf(leaf) if leaf < leaves => Ok(()),
        Node::Leaf(_) => Err(Fault::LeafMissing(number)),
        Node::Inner(_, left, right) if left < number && right < number => Ok(()),
        Node::Inner(..) => Err(Fault::ChildNotBelow(number)),
    }
}

// The nodes of a tree as they are handed over, 1 to 127 of them.
#[derive(Clone, Copy)]
struct Nodes<'a> {
    nodes: &'a [BareNode],
    ghost some: { 0 < length nodes.now },
    ghost few: { length nodes.now ≤ 127 },
}

impl Nodes<'_> {
    // Refuses the first node that is at fault.
    fn check_nodes(&self, leaves: u16) -> Result<(), Fault>
        ensures { told result ≡ answered (node_faults leaves 0 self.now.nodes.now) tt }
    {
        for (number, bare) in self.nodes.iter().enumerate() {
            check_node(leaves, number as u16, *bare)?;
        }
        Ok(())
    }

    // How often the nodes name another as a child.
    fn times_named(&self, child: u16) -> u16
        ensures { result ≡ times_named (nodes_from self.now.nodes.now) child }
    {
        self.nodes.iter().map(|bare| bare.node().names(child)).sum()
    }

    // Refuses a node that is not named exactly once as a child.
    fn check_parent(&self, child: u16) -> Result<(), Fault>
        ensures { told result ≡ answered (parent_fault (nodes_from self.now.nodes.now) child) tt }
    {
        if self.times_named(child) == 1 {
            Ok(())
        } else {
            Err(Fault::ParentNotOne(child))
        }
    }

    // Refuses the first such node of all but the root.
    fn check_parents(&self) -> Result<(), Fault>
        ensures { told result ≡ answered (parent_faults (nodes_from self.now.nodes.now) 0 (length self.now.nodes.now - 1)) tt }
    {
        let root = self.nodes.len() as u16 - 1;
        for child in 0..root {
            self.check_parent(child)?;
        }
        Ok(())
    }
}

// Checks a tree over a pattern, and refuses it with its first fault.
pub fn check<P: Pattern>(pattern: &P, nodes: &[BareNode]) -> Result<(), Fault>
    ensures is { told result ≡ answered (tree_fault (length (P.Pattern.sets pattern.now)) nodes.now) tt }
    ensures law { CheckLaw (length (P.Pattern.sets pattern.now)) nodes.now (told result) }
{
    if nodes.is_empty() || nodes.len() > MOST_NODES {
        return Err(Fault::NodeCount);
    }
    let nodes = Nodes { nodes };
    nodes.check_nodes(pattern.leaves())?;
    nodes.check_parents()
}
