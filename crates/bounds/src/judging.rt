// The judgement of a cell, from the relations of a bank's leaves. What is done with relations here serves trees alone, and so
// stands here as free functions and not with the type in the crate below.
ghost use Rattle.std.specs.Prelude.{◌≡◌, ◌<◌, length};
ghost use Rattle.pattern.specs.Relations.{Says};
ghost use Rattle.bounds.specs.Sets.{root_set};
ghost use Rattle.bounds.specs.Judgement.{opposite, union_of, both_of, join_relations, asks_right, judged_at, judged};
ghost use Rattle.bounds.specs.Trees.{nodes_of};

use crate::tree::BoundedTree;
use grid::Cell;
use pattern::{Bank, Relation};
use trees::{Node, Operation};

// Inside and Outside swapped.
fn swapped(relation: Relation) -> Relation
    ensures { result ≡ opposite relation }
{
    match relation {
        Relation::Inside => Relation::Outside,
        Relation::Outside => Relation::Inside,
        Relation::Mixed => Relation::Mixed,
    }
}

// Inside if one of the two is, Outside if both are, else Mixed.
fn either(left: Relation, right: Relation) -> Relation
    ensures { result ≡ union_of left right }
{
    match (left, right) {
        (Relation::Inside, _) | (_, Relation::Inside) => Relation::Inside,
        (Relation::Outside, Relation::Outside) => Relation::Outside,
        _ => Relation::Mixed,
    }
}

// Outside if one of the two is, Inside if both are, else Mixed.
fn both(left: Relation, right: Relation) -> Relation
    ensures { result ≡ both_of left right }
{
    swapped(either(swapped(left), swapped(right)))
}

// The relation that an operation makes of two.
fn joined(operation: Operation, left: Relation, right: Relation) -> Relation
    ensures { result ≡ join_relations operation left right }
{
    match (operation, left) {
        (Operation::Union, _) => either(left, right),
        (Operation::Both, _) => both(left, right),
        (Operation::Less, _) => both(left, swapped(right)),
        (Operation::Differ, Relation::Inside) => swapped(right),
        (Operation::Differ, Relation::Outside) => right,
        (Operation::Differ, Relation::Mixed) => Relation::Mixed,
    }
}

// Whether the right child can still change the relation of a node. A test beside `joined`, and no closure that it calls:
// the answer depends on the node's bound too, of which `joined` knows nothing.
fn asks_right(operation: Operation, bound: Relation, left: Relation) -> bool
    ensures { result ≡ asks_right operation bound left }
{
    match operation {
        Operation::Union => matches!(
            (left, bound),
            (Relation::Outside, _) | (Relation::Mixed, Relation::Inside)
        ),
        Operation::Both | Operation::Less => left != Relation::Outside,
        Operation::Differ => left != Relation::Mixed,
    }
}

impl BoundedTree {
    // The judgement of a cell by a node. The bank is asked only for what can change it.
    fn judge_at<B: Bank>(&self, bank: &B, cell: Cell, number: u16) -> Relation
        requires { number < length (nodes_of self.now) }
        ensures { result ≡ judged_at (B.Bank.meaning bank.now) (nodes_of self.now) cell number }
    {
        let entry = self.entry(number);
        let bound = Relation::of_box(entry.bound, cell);
        if bound == Relation::Outside {
            return Relation::Outside;
        }
        match entry.node {
            Node::Leaf(leaf) => both(bound, bank.relation(leaf, cell)),
            Node::Inner(operation, left, right) => {
                let left = self.judge_at(bank, cell, left);
                let right = if asks_right(operation, bound, left) {
                    self.judge_at(bank, cell, right)
                } else {
                    Relation::Outside
                };
                both(bound, joined(operation, left, right))
            }
        }
    }

    // How the bounded set of the root lies to a cell.
    #[tactic(auto, using(crate::proofs::JudgeLaws::judged_told))]
    pub fn judge<B: Bank>(&self, bank: &B, cell: Cell) -> Relation
        ensures is { result ≡ judged (B.Bank.meaning bank.now) (nodes_of self.now) cell }
        ensures law { Says result (root_set (B.Bank.meaning bank.now).sets (nodes_of self.now)) cell }
        ensures own { (B.Bank.meaning bank.now).sets ≡ B.Pattern.sets bank.now }
    {
        self.judge_at(bank, cell, self.root())
    }
}
