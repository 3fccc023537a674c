// Numbers along the axes: what places and bare places have in common.
ghost use Rattle.std.specs.Prelude.{◌≡◌, ℕ};
ghost use Rattle.grid.specs.declared.axis.Axis.{Axis};
ghost use Rattle.grid.specs.Axes.{below};

use crate::axis::Axis;

// Three numbers, one on each axis.
pub trait Coordinates {
    // The number on each axis.
    ghost along: { Self → Axis → ℕ };

    // The number on an axis.
    fn on(&self, axis: Axis) -> u16
        ensures { result ≡ along self.now axis };
}

// On no axis is the first number above the second. A function and no PartialOrd, whose two sides are of one type: here a
// place stands beside bare numbers.
pub fn is_below<A: Coordinates, B: Coordinates>(low: &A, high: &B) -> bool
    ensures { result ≡ below (A.along low.now) (B.along high.now) }
{
    low.on(Axis::Needle) <= high.on(Axis::Needle)
        && low.on(Axis::Course) <= high.on(Axis::Course)
        && low.on(Axis::Track) <= high.on(Axis::Track)
}
