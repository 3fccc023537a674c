// Bounds cut in the nodes' own records.
ghost use Rattle.std.specs.Prelude.{◌≡◌, ◌<◌, ◌≤◌, length};
ghost use Rattle.bounds.specs.Tables.{entries, cut_both, cut_node, narrowed};
ghost use Rattle.bounds.specs.Trees.{nodes_of};

use crate::bounded_node::BoundedNode;
use crate::table::NodeTable;
use crate::tree::BoundedTree;
use grid::Cell;

// What two possible cells have in common.
pub(crate) fn common(one: Option<Cell>, other: Option<Cell>) -> Option<Cell>
    ensures { result ≡ cut_both one other }
{
    one?.cut(other?)
}

impl BoundedNode {
    // Cuts the bound by another.
    fn narrow(&mut self, bound: Option<Cell>)
        ensures { self.new ≡ cut_node self.old bound }
    {
        self.bound = common(self.bound, bound);
    }
}

impl NodeTable {
    // Cuts the bound of one node, in its own record.
    #[tactic(auto, using(crate::proofs::TableLaws::shown_narrowed))]
    fn narrow(&mut self, number: u16, bound: Option<Cell>)
        requires { (number < self.old.count) × (self.old.count ≤ 127) }
        ensures is { entries self.new ≡ narrowed (entries self.old) number bound }
        ensures count { self.new.count ≡ self.old.count }
    {
        let node = &mut self.nodes[number as usize];
        node.narrow(bound);
    }
}

impl BoundedTree {
    // The same of a tree. No other call writes to its table, so here alone it is shown to stay a tree. That it stays as long
    // is said beside, here and of the cuts, so that the next step finds its node without going through what was cut.
    pub(crate) fn narrow(&mut self, number: u16, bound: Option<Cell>)
        requires { number < length (nodes_of self.old) }
        ensures is { nodes_of self.new ≡ narrowed (nodes_of self.old) number bound }
        ensures long { length (nodes_of self.new) ≡ length (nodes_of self.old) }
    {
        self.table.narrow(number, bound);
    }
}
