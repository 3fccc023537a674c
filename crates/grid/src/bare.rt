ghost use Rattle.grid.specs.Refusals.{numbers};

use crate::axis::Axis;
use crate::coordinates::Coordinates;

// Three numbers from outside, not yet known to be a place.
#[derive(Clone, Copy, PartialEq, Eq, Debug)]
pub struct BarePlace {
    pub needle: u16,
    pub course: u16,
    pub track: u16,
}

// The arms are those of a place. A place could hold a bare place and ask it, but every definition that names its numbers
// would then read them through one more field.
impl Coordinates for BarePlace {
    ghost along = { numbers };

    fn on(&self, axis: Axis) -> u16 {
        match axis {
            Axis::Needle => self.needle,
            Axis::Course => self.course,
            Axis::Track => self.track,
        }
    }
}
