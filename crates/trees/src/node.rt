use crate::bare::BareNode;
use std::error::Error;
use std::fmt;

// The most nodes of a tree.
pub const MOST_NODES: usize = 127;

// How an inner node joins the sets of its two children.
#[derive(Clone, Copy, PartialEq, Eq, Debug)]
pub enum Operation {
    // The places of either.
    Union,
    // The places of both.
    Both,
    // The places of the left that are not in the right.
    Less,
    // The places of just one.
    Differ,
}

// One node of a checked tree.
#[derive(Clone, Copy, PartialEq, Eq, Debug)]
pub enum Node {
    // A leaf of the pattern, by its number.
    Leaf(u16),
    // An operation on two other nodes, by their numbers: left and right. A tree is handed over as a table and nothing is
    // allocated, so there are no boxes here.
    Inner(Operation, u16, u16),
}

// The operation of a bare node, where it is none of 0 to 4.
#[derive(Clone, Copy, PartialEq, Eq, Debug)]
pub struct UnknownOperation(pub u16);

impl TryFrom<BareNode> for Node {
    ghost use Rattle.trees.specs.Nodes.{Converts};

    type Error = UnknownOperation;

    ghost try_from_gives = { Converts };

    fn try_from(bare: BareNode) -> Result<Node, UnknownOperation> {
        match bare.operation {
            0 => Ok(Node::Leaf(bare.left)),
            1 => Ok(Node::Inner(Operation::Union, bare.left, bare.right)),
            2 => Ok(Node::Inner(Operation::Both, bare.left, bare.right)),
            3 => Ok(Node::Inner(Operation::Less, bare.left, bare.right)),
            4 => Ok(Node::Inner(Operation::Differ, bare.left, bare.right)),
            unknown => Err(UnknownOperation(unknown)),
        }
    }
}

impl fmt::Display for UnknownOperation {
    ghost use Rattle.std.specs.Prelude.{Some};
    ghost use Rattle.trees.specs.Texts.{told_operation};

    ghost output = { λ o. Some (told_operation o) };

    fn fmt<W: fmt::Write>(&self, f: &mut fmt::Formatter<W>) -> fmt::Result {
        write!(f, "{} is no operation", self.0)
    }
}

impl Error for UnknownOperation {}

impl Node {
    ghost use Rattle.std.specs.Prelude.{◌≡◌};
    ghost use Rattle.trees.specs.Nodes.{names};

    // How often the node names another as its child.
    pub(crate) fn names(self, child: u16) -> u16
        ensures { result ≡ names self child }
    {
        match self {
            Node::Leaf(_) => 0,
            Node::Inner(_, left, right) => u16::from(left == child) + u16::from(right == child),
        }
    }
}
