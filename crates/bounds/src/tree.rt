ghost use Rattle.std.specs.Prelude.{◌≡◌, ℕ, suc, ◌<◌, ◌≤◌, true, length};
ghost use Rattle.trees.specs.Nodes.{node_at, children_below, times_named};
ghost use Rattle.bounds.specs.Tables.{nodes_in, entries};

use crate::bounded_node::BoundedNode;
use crate::first::FirstBounds;
use crate::table::NodeTable;
use grid::Cell;
use pattern::Bank;
use trees::{BareNode, Fault};

// A checked tree with a bound at each node. It has 1 to 127 nodes, a node names only nodes before it, and each node but the
// last is named exactly once.
#[derive(Clone, Copy, Debug)]
pub struct BoundedTree {
    pub(crate) table: NodeTable,
    ghost some: { 0 < table.count },
    ghost few: { table.count ≤ 127 },
    ghost whole: { length (entries table) ≡ table.count },
    ghost below: { (i : ℕ) → i < table.count → children_below i (node_at (nodes_in (entries table)) i) ≡ true },
    ghost parents: { (child : ℕ) → suc child < table.count → times_named (nodes_in (entries table)) child ≡ 1 },
}

impl BoundedTree {
    ghost use Rattle.std.specs.Prelude.{slice_index_or};
    ghost use Rattle.trees.specs.declared.node.Operation.{Operation};
    ghost use Rattle.trees.specs.declared.node.Node.TheVariants.{Inner};
    ghost use Rattle.trees.specs.Sets.{root_of};
    ghost use Rattle.trees.specs.Checks.{tree_fault, answered};
    ghost use Rattle.bounds.specs.Tables.{blank, bound_at};
    ghost use Rattle.bounds.specs.First.{first_bounds};
    ghost use Rattle.bounds.specs.Trees.{nodes_of, possible_at, told_tree};
    ghost use Rattle.bounds.specs.Laws.{FirstLaw};

    // Checks a tree over a bank, and gives each node its first bound: a leaf node that of its leaf cut by the workspace, an
    // inner node the workspace. Refused with the first fault of the tree.
    pub fn new<B: Bank>(bank: &B, nodes: &[BareNode], workspace: Cell) -> Result<BoundedTree, Fault>
        ensures is { told_tree result ≡ answered (tree_fault (length (B.Pattern.sets bank.now)) nodes.now) (first_bounds (B.Bank.meaning bank.now) workspace nodes.now) }
        ensures law { FirstLaw (B.Bank.meaning bank.now) workspace nodes.now (told_tree result) }
        ensures own { (B.Bank.meaning bank.now).sets ≡ B.Pattern.sets bank.now }
    {
        trees::check(bank, nodes)?;
        let table = FirstBounds { bank, workspace }.table(nodes);
        Ok(BoundedTree { table })
    }

    // The number of nodes.
    pub fn count(&self) -> u16
        ensures { result ≡ length (nodes_of self.now) }
    {
        self.table.count as u16
    }

    // The nodes with their bounds: those of the table, which knows nothing of trees.
    pub(crate) fn nodes(&self) -> &[BoundedNode]
        ensures { result.now ≡ nodes_of self.now }
    {
        self.table.entries()
    }

    // A node with its bound, if there is one of that number.
    pub fn node(&self, number: u16) -> Option<BoundedNode>
        ensures { result ≡ possible_at (nodes_of self.now) number blank }
    {
        self.nodes().get(number as usize).copied()
    }

    // A node with its bound, where there is one. Its children have lower numbers.
    // The number is a plain one, as in all calls that work on a node: one that held its tree could not be handed to those
    // that write to the tree.
    pub(crate) fn entry(&self, number: u16) -> BoundedNode
        requires { number < length (nodes_of self.now) }
        ensures is { result ≡ slice_index_or (nodes_of self.now) number blank }
        ensures below { (operation : Operation) (left right : ℕ) → result.node ≡ Inner operation left right → (left < number) × (right < number) }
    {
        self.nodes()[number as usize]
    }

    // The number of the root.
    pub(crate) fn root(&self) -> u16
        ensures is { result ≡ root_of (nodes_of self.now) }
        ensures there { result < length (nodes_of self.now) }
    {
        self.count() - 1
    }

    // The bound of the root.
    pub fn root_bound(&self) -> Option<Cell>
        ensures { result ≡ bound_at (nodes_of self.now) (root_of (nodes_of self.now)) }
    {
        self.entry(self.root()).bound
    }
}
