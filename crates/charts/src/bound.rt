// Where a chart lies.
ghost use Rattle.std.specs.Prelude.{◌≡◌};
ghost use Rattle.charts.specs.Relations.{chart_bound};

use crate::frame::Frame;
use grid::{BarePlace, Cell};

impl Frame {
    // The bound of a chart with so many bytes: its rows, on all tracks, cut by the grid; none if there are none.
    pub fn bound(&self, count: usize) -> Option<Cell>
        ensures { result ≡ chart_bound self.now count }
    {
        if self.width == 0 || count == 0 {
            return None;
        }
        let rows = count.div_ceil(self.width as usize).min(65536);
        let low = BarePlace {
            needle: self.left,
            course: self.first,
            track: 0,
        };
        let high = BarePlace {
            needle: self.left.saturating_add(self.width - 1),
            course: self.first.saturating_add((rows - 1) as u16),
            track: 7,
        };
        Cell::from_box(low, high)
    }
}
