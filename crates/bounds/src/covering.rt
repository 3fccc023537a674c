// The leaf nodes that cover a tree, by recursion over its nodes: the number of the node falls.
ghost use Rattle.std.specs.Prelude.{◌≡◌, ℕ, ◌+◌, ◌<◌, ◌≤◌, false, ◌||◌, length, get_or, if◌then◌else◌, nat_le, slice_index_or};
ghost use Rattle.bounds.specs.Tables.{nodes_in};
ghost use Rattle.bounds.specs.Tightening.{passing};
ghost use Rattle.bounds.specs.Covering.{cover_at, covering_leaves};
ghost use Rattle.bounds.specs.Trees.{nodes_of, numbers_of};
ghost use Rattle.bounds.specs.Laws.{CoverLaw};

use crate::covering_leaves::CoveringLeaves;
use crate::tree::BoundedTree;
use trees::{MOST_NODES, Node, Operation};

// The numbers of the marks, in rising order.
fn gathered(marks: &[bool]) -> CoveringLeaves
    requires { length marks.now ≤ 127 }
    ensures { numbers_of result ≡ passing (λ j. get_or marks.now j false) (length marks.now) }
{
    let mut leaves = CoveringLeaves::new();
    for (number, marked) in marks.iter().enumerate() {
        if *marked {
            leaves.push(number as u16);
        }
    }
    leaves
}

impl BoundedTree {
    // How many leaf nodes a node is made of; no more than there are nodes up to it.
    fn leaf_count(&self, number: u16) -> u16
        requires { number < length (nodes_of self.now) }
        ensures is { result ≡ (cover_at (nodes_in (nodes_of self.now)) number).leaves }
        ensures few { result ≤ number + 1 }
    {
        match self.entry(number).node {
            Node::Leaf(_) => 1,
            Node::Inner(_, left, right) => self.leaf_count(left) + self.leaf_count(right),
        }
    }

    // Of two nodes the one that is made of fewer leaf nodes, the first if they have as many.
    fn fewer(&self, left: u16, right: u16) -> u16
        requires { (left < length (nodes_of self.now)) × (right < length (nodes_of self.now)) }
        ensures { result ≡ (if nat_le (cover_at (nodes_in (nodes_of self.now)) left).leaves (cover_at (nodes_in (nodes_of self.now)) right).leaves then left else right) }
    {
        if self.leaf_count(left) <= self.leaf_count(right) {
            left
        } else {
            right
        }
    }

    // Marks the leaf nodes that cover a node.
    // In the caller's array, since marks that were handed back would be copied and joined at each inner node.
    fn mark(&self, number: u16, marks: &mut [bool; MOST_NODES])
        requires { number < length (nodes_of self.now) }
        ensures { (j : ℕ) → slice_index_or marks.new j false ≡ (slice_index_or marks.old j false || (cover_at (nodes_in (nodes_of self.now)) number).covers j) }
    {
        match self.entry(number).node {
            Node::Leaf(_) => marks[number as usize] = true,
            Node::Inner(operation, left, right) => match operation {
                Operation::Union | Operation::Differ => {
                    self.mark(left, marks);
                    self.mark(right, marks);
                }
                Operation::Both => self.mark(self.fewer(left, right), marks),
                Operation::Less => self.mark(left, marks),
            },
        }
    }

    // The leaf nodes that cover the tree.
    #[tactic(auto, using(crate::proofs::CoverLaws::cover_told))]
    pub fn covering(&self) -> CoveringLeaves
        ensures is { numbers_of result ≡ covering_leaves (nodes_in (nodes_of self.now)) }
        ensures law { CoverLaw (nodes_of self.now) }
    {
        let mut marks = [false; MOST_NODES];
        self.mark(self.root(), &mut marks);
        gathered(&marks[..self.table.count])
    }
}
