// Why a tree, or a place to test, is refused.
ghost use Rattle.std.specs.Prelude.{◌≡◌};
ghost use Rattle.trees.specs.declared.fault.Fault.TheVariants.{Numbers};
ghost use Rattle.trees.specs.Faults.{number_of, node_of};

use grid::Refusal;
use std::error::Error;
use std::fmt;

#[derive(Clone, Copy, PartialEq, Eq, Debug)]
pub enum Fault {
    // The numbers of a place or of a workspace are refused.
    Numbers(Refusal),
    // There is no node, or there are more than 127.
    NodeCount,
    // The operation of this node is unknown.
    UnknownOperation(u16),
    // A child of this node has not a lower number than the node.
    ChildNotBelow(u16),
    // The pattern has no leaf of the number that this node names.
    LeafMissing(u16),
    // This node is not the root, and not the child of exactly one node, once.
    ParentNotOne(u16),
}

impl Fault {
    // The number by which the fault is told. It is the product's own output, 3 to 9, so a number and no enum.
    pub fn number(&self) -> u16
        ensures { result ≡ number_of self.now }
    {
        match self {
            Fault::Numbers(numbers) => numbers.number(),
            Fault::NodeCount => 5,
            Fault::UnknownOperation(_) => 6,
            Fault::ChildNotBelow(_) => 7,
            Fault::LeafMissing(_) => 8,
            Fault::ParentNotOne(_) => 9,
        }
    }

    // The node that is at fault. The product's output has 0 where none is, so this is a number and no Option.
    pub fn node(&self) -> u16
        ensures { result ≡ node_of self.now }
    {
        match self {
            Fault::Numbers(_) | Fault::NodeCount => 0,
            Fault::UnknownOperation(node)
            | Fault::ChildNotBelow(node)
            | Fault::LeafMissing(node)
            | Fault::ParentNotOne(node) => *node,
        }
    }
}

// Refused numbers are a fault.
impl From<Refusal> for Fault {
    ghost from_gives = { λ refusal r. r ≡ Numbers refusal };

    fn from(refusal: Refusal) -> Fault {
        Fault::Numbers(refusal)
    }
}

impl fmt::Display for Fault {
    ghost use Rattle.std.specs.Prelude.{Some};
    ghost use Rattle.trees.specs.Texts.{reason_for};

    ghost output = { λ f. Some (reason_for f) };

    fn fmt<W: fmt::Write>(&self, f: &mut fmt::Formatter<W>) -> fmt::Result {
        match self {
            Fault::Numbers(numbers) => write!(f, "{numbers}"),
            Fault::NodeCount => write!(f, "a tree has 1 to 127 nodes"),
            Fault::UnknownOperation(node) => write!(f, "node {node} has an unknown operation"),
            Fault::ChildNotBelow(node) => write!(f, "node {node} has a child not below it"),
            Fault::LeafMissing(node) => write!(f, "node {node} names a leaf that is missing"),
            Fault::ParentNotOne(node) => write!(f, "node {node} is not named just once"),
        }
    }
}

impl Error for Fault {}
