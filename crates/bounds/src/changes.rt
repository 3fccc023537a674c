// How many bounds are other than before.
ghost use Rattle.std.specs.Prelude.{◌≡◌, ◌≤◌, length, not};
ghost use Rattle.bounds.specs.Tightening.{same_bound, changed_nodes};

use crate::bounded_node::BoundedNode;

// Whether a node has another bound than before.
fn is_changed(before: &BoundedNode, after: &BoundedNode) -> bool
    ensures { result ≡ not (same_bound before.now.bound after.now.bound) }
{
    before.bound != after.bound
}

// How many nodes have another bound than before.
pub(crate) fn changes(before: &[BoundedNode], after: &[BoundedNode]) -> u16
    requires few { length before.now ≤ 127 }
    requires alike { length after.now ≡ length before.now }
    ensures { result ≡ length (changed_nodes before.now after.now) }
{
    before
        .iter()
        .zip(after)
        .filter(|(before, after)| is_changed(before, after))
        .count() as u16
}
