// The test of one place.
ghost use Rattle.std.specs.Prelude.{◌≡◌, ◌<◌, Bool, true, false, length};
ghost use Rattle.grid.specs.Refusals.{place_of};
ghost use Rattle.trees.specs.Nodes.{nodes_from, Tree};
ghost use Rattle.trees.specs.Sets.{joins, asks, node_set};
ghost use Rattle.trees.specs.Faults.{told};
ghost use Rattle.trees.specs.Checks.{place_tested};

use crate::bare::BareNode;
use crate::checks::check;
use crate::fault::Fault;
use crate::node::{Node, Operation};
use grid::{BarePlace, Place};
use pattern::Pattern;

impl Operation {
    // Whether a place is in the set that the operation makes of two others, from whether it is in the left one; the right
    // one may be asked only where that matters, since only there it is known that it can be. An Fn, though it is called once
    // at most: what an FnOnce answers is not known to the check where the call leads back to the function that made it.
    fn joins<F: Fn() -> bool>(self, left: bool, right: F) -> bool
        requires { asks self left ≡ true → F.pre right }
        ensures unasked { asks self left ≡ false → result ≡ joins self left false }
        ensures asked { asks self left ≡ true → (b : Bool) × F.post right b × (result ≡ joins self left b) }
    {
        match self {
            Operation::Union => left || right(),
            Operation::Both => left && right(),
            Operation::Less => left && !right(),
            Operation::Differ => left != right(),
        }
    }
}

// A place that is tested by a checked tree over a pattern.
#[derive(Drop)]
struct PlaceTest<'a, P> {
    pattern: &'a P,
    nodes: &'a [BareNode],
    place: Place,
    ghost tree: { Tree (nodes_from nodes.now) },
}

impl<P: Pattern> PlaceTest<'_, P> {
    // Whether the set of a node has the place.
    #[cycle(is_in)]
    fn is_in(&self, number: u16) -> bool
        requires { number < length self.now.nodes.now }
        ensures { result ≡ node_set (P.Pattern.sets self.now.pattern.now) (nodes_from self.now.nodes.now) number self.now.place }
    {
        match self.nodes[number as usize].node() {
            Node::Leaf(leaf) => self.pattern.holds(leaf, self.place),
            Node::Inner(operation, left, right) => {
                let in_right = ||
                    requires { right < length self.now.nodes.now }
                    ensures { result ≡ node_set (P.Pattern.sets self.entry.now.pattern.now) (nodes_from self.entry.now.nodes.now) right self.entry.now.place }
                { self.is_in(right) };
                operation.joins(self.is_in(left), in_right)
            }
        }
    }
}

// Whether a place lies in the set of a tree; refused if the place is off the grid, or else with the first fault of the
// tree.
pub fn place_test<P: Pattern>(
    pattern: &P,
    nodes: &[BareNode],
    place: BarePlace,
) -> Result<bool, Fault>
    ensures { told result ≡ place_tested (P.Pattern.sets pattern.now) nodes.now (place_of place) }
{
    let place = Place::new(place)?;
    check(pattern, nodes)?;
    let test = PlaceTest {
        pattern,
        nodes,
        place,
    };
    Ok(test.is_in(nodes.len() as u16 - 1))
}
