// Charts: all stitches together are one area.
ghost use Rattle.std.specs.Prelude.{◌≡◌, length};
ghost use Rattle.charts.specs.Charts.{stitch_set};
ghost use Rattle.charts.specs.Relations.{chart_bound, chart_relation};
ghost use Rattle.charts.proofs.ChartLaws.{chart_facts};
ghost use Rattle.lists.specs.Charts.{frame, frame_of, bytes_of};

use charts::Frame;
use grid::{Cell, Place};
use pattern::{Area, Relation};

// Rows of bytes in the caller's memory, in their frame.
#[derive(Clone, Copy, PartialEq, Eq, Debug)]
pub struct Chart<'a> {
    frame: Frame,
    bytes: &'a [u8],
}

impl<'a> Chart<'a> {
    pub fn new(left: u16, first: u16, width: u16, bytes: &'a [u8]) -> Chart<'a>
        ensures frame { frame_of result ≡ frame left first width }
        ensures bytes { bytes_of result ≡ bytes.now }
    {
        Chart {
            frame: Frame { left, first, width },
            bytes,
        }
    }
}

impl<'a> Area for Chart<'a> {
    ghost set = { λ c. stitch_set (frame_of c) (bytes_of c) };

    ghost limits = { λ c. chart_bound (frame_of c) (length (bytes_of c)) };

    ghost lies_to = { λ c. chart_relation (frame_of c) (bytes_of c) };

    ghost facts = { λ c. chart_facts (frame_of c) (bytes_of c) };

    fn has(&self, place: Place) -> bool {
        self.frame.stitches(self.bytes, place)
    }

    fn limits(&self) -> Option<Cell> {
        self.frame.bound(self.bytes.len())
    }

    fn lies_to(&self, cell: Cell) -> Relation {
        self.frame.relation(self.bytes, cell)
    }
}
