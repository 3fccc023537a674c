// A bank of one's own, as an example: a one-by-one rib, the stitches of every other needle.
#![tactic(auto)]

ghost use Rattle.std.specs.Prelude.{Some};
ghost use Rattle.grid.specs.Cells.{grid_cell};
ghost use Rattle.rib.specs.Rib.{rib_set, rib_relation};
ghost use Rattle.rib.specs.RibLaws.{rib_facts};

use grid::{Cell, Place};
use pattern::{Area, Relation};

// Needles 0, 2, 4 and so on, in all courses and on all tracks.
#[derive(Clone, Copy, PartialEq, Eq, Debug)]
pub struct Rib {}

impl Area for Rib {
    ghost set = { λ r. rib_set };

    ghost limits = { λ r. Some grid_cell };

    ghost lies_to = { λ r. rib_relation };

    ghost facts = { rib_facts };

    fn has(&self, place: Place) -> bool {
        place.needle() % 2 == 0
    }

    fn limits(&self) -> Option<Cell> {
        Some(Cell::grid())
    }

    fn lies_to(&self, cell: Cell) -> Relation {
        if cell.low().needle() < cell.high().needle() {
            Relation::Mixed
        } else if cell.low().needle() % 2 == 0 {
            Relation::Inside
        } else {
            Relation::Outside
        }
    }
}
