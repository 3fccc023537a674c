// Tightening: the bounds of a tree narrowed by one another.
ghost use Rattle.std.specs.Prelude.{◌≡◌, ◌<◌, length, slice_index_or};
ghost use Rattle.bounds.specs.Tables.{blank};
ghost use Rattle.bounds.specs.Tightening.{reach, cut_by_children, cut_children, upward, downward, tightened, changed_nodes};
ghost use Rattle.bounds.specs.Trees.{nodes_of};
ghost use Rattle.bounds.specs.Laws.{TightenLaw};

use crate::changes::changes;
use crate::narrowing::common;
use crate::tree::BoundedTree;
use grid::Cell;
use trees::{Node, Operation};

// Where the set of an inner node can lie at all, by the bounds of its children.
fn within_reach(operation: Operation, left: Option<Cell>, right: Option<Cell>) -> Option<Cell>
    ensures { result ≡ reach operation left right }
{
    match operation {
        Operation::Union | Operation::Differ => Cell::hull(left, right),
        Operation::Both => common(left, right),
        Operation::Less => left,
    }
}

impl BoundedTree {
    // Cuts the bound of a node by what its children's bounds leave it.
    fn cut_by_children(&mut self, number: u16)
        requires { number < length (nodes_of self.old) }
        ensures is { nodes_of self.new ≡ cut_by_children (slice_index_or (nodes_of self.old) number blank).node number (nodes_of self.old) }
        ensures long { length (nodes_of self.new) ≡ length (nodes_of self.old) }
    {
        if let Node::Inner(operation, left, right) = self.entry(number).node {
            let reach = within_reach(operation, self.entry(left).bound, self.entry(right).bound);
            self.narrow(number, reach);
        }
    }

    // Cuts the bounds of a node's children by its own.
    fn cut_children(&mut self, number: u16)
        requires { number < length (nodes_of self.old) }
        ensures is { nodes_of self.new ≡ cut_children (slice_index_or (nodes_of self.old) number blank).node number (nodes_of self.old) }
        ensures long { length (nodes_of self.new) ≡ length (nodes_of self.old) }
    {
        if let Node::Inner(_, left, right) = self.entry(number).node {
            let bound = self.entry(number).bound;
            self.narrow(left, bound);
            self.narrow(right, bound);
        }
    }

    // Cuts each node by what its children's bounds leave it, in rising order. By number, since a turn reads other nodes.
    #[tactic(auto, using(crate::proofs::NodeLaws::upward_none, crate::proofs::NodeLaws::upward_more))]
    fn cut_upward(&mut self)
        ensures is { nodes_of self.new ≡ upward (length (nodes_of self.old)) (nodes_of self.old) }
        ensures long { length (nodes_of self.new) ≡ length (nodes_of self.old) }
    {
        for number in 0..self.count() {
            self.cut_by_children(number);
        }
    }

    // Cuts the children of each node by its bound, in falling order. By number, since a turn writes other nodes.
    #[tactic(auto, using(crate::proofs::NodeLaws::downward_none, crate::proofs::NodeLaws::downward_more))]
    fn cut_downward(&mut self)
        ensures is { nodes_of self.new ≡ downward (length (nodes_of self.old)) (nodes_of self.old) }
        ensures long { length (nodes_of self.new) ≡ length (nodes_of self.old) }
    {
        for number in (0..self.count()).rev() {
            self.cut_children(number);
        }
    }

    // Narrows the bounds by one another: first each inner node by its children, in rising order, then each child by its
    // parent, in falling order. Tells how many nodes have another bound than before.
    pub fn tighten(&mut self) -> u16
        ensures is { nodes_of self.new ≡ tightened (nodes_of self.old) }
        ensures changed { result ≡ length (changed_nodes (nodes_of self.old) (nodes_of self.new)) }
        ensures law { TightenLaw (nodes_of self.old) (nodes_of self.new) }
    {
        let before = *self;
        self.cut_upward();
        self.cut_downward();
        changes(before.nodes(), self.nodes())
    }
}
