// How a chart lies to a cell.
ghost use Rattle.std.specs.Prelude.{◌≡◌, ◌+◌, ◌≤◌, ◌&&◌, ◌||◌, Some};
ghost use Rattle.grid.specs.declared.axis.Axis.TheVariants.{Needle, Course};
ghost use Rattle.grid.specs.Cells.{lo, hi, In};
ghost use Rattle.pattern.specs.Relations.{exactly};
ghost use Rattle.charts.specs.Charts.{stitch_set};
ghost use Rattle.charts.specs.Judging.{Tells, HasColumn, OnColumn, Before, held_by, free_by, seen_held, seen_free, seen_relation};
ghost use Rattle.charts.specs.Relations.{chart_relation};

use crate::frame::Frame;
use grid::Cell;
use pattern::Relation;

// The most places of a cell that are judged one by one.
const MOST_JUDGED: u64 = 1024;

// How a column lies to a cell's tracks from low to high, by its byte.
fn by_byte(byte: Option<u8>, low: u16, high: u16) -> Relation
    ensures { result ≡ seen_relation (held_by byte low high) (free_by byte low high) }
{
    let held = byte.is_some_and(|byte| (low..=high).contains(&(byte as u16)));
    if !held {
        Relation::Outside
    } else if low < high {
        Relation::Mixed
    } else {
        Relation::Inside
    }
}

// The relation of the places seen so far, if there are any, together with those of one more part.
fn joined(seen: Option<Relation>, part: Relation) -> Relation
    ensures held { seen_held (Some result) ≡ (seen_held seen || seen_held (Some part)) }
    ensures free { seen_free (Some result) ≡ (seen_free seen || seen_free (Some part)) }
{
    match seen {
        Some(seen) if seen != part => Relation::Mixed,
        _ => part,
    }
}

// Whether no further place can change the answer.
fn is_settled(seen: Option<Relation>) -> bool
    ensures { result ≡ (seen_held seen && seen_free seen) }
{
    seen == Some(Relation::Mixed)
}

// A chart and a cell that is judged column by column.
// The loops are one scan, which stops once the answer is settled and reads no byte twice: a rule of the project.
#[derive(Clone, Copy)]
struct Judging<'a> {
    frame: Frame,
    bytes: &'a [u8],
    cell: Cell,
}

impl Judging<'_> {
    // How the cell's column at a needle and a course lies to the chart. One byte decides all its tracks.
    fn column(&self, needle: u16, course: u16) -> Relation
        requires { HasColumn self.now.cell needle course }
        ensures { Tells (OnColumn self.now.cell needle course) (stitch_set self.now.frame self.now.bytes.now) (Some result) }
    {
        by_byte(
            self.frame.byte_at(self.bytes, needle, course),
            self.cell.low().track(),
            self.cell.high().track(),
        )
    }

    // How the cell's row at a course lies to the chart together with the rows before it, as far as needed to settle the
    // answer.
    fn row(&self, course: u16, before: Option<Relation>) -> Option<Relation>
        requires in_cell { (lo self.now.cell Course ≤ course) × (course ≤ hi self.now.cell Course) }
        requires told { Tells (Before self.now.cell (lo self.now.cell Needle) course) (stitch_set self.now.frame self.now.bytes.now) before }
        ensures { Tells (Before self.now.cell (lo self.now.cell Needle) (course + 1)) (stitch_set self.now.frame self.now.bytes.now) result }
    {
        let mut seen = before;
        for needle in self.cell.low().needle()..=self.cell.high().needle() {
            if is_settled(seen) {
                return seen;
            }
            seen = Some(joined(seen, self.column(needle, course)));
        }
        seen
    }

    // How all places of the cell lie to the chart, as far as needed to settle the answer.
    fn seen(&self) -> Option<Relation>
        ensures { Tells (λ p. In p self.now.cell) (stitch_set self.now.frame self.now.bytes.now) result }
    {
        let mut seen = None;
        for course in self.cell.low().course()..=self.cell.high().course() {
            if is_settled(seen) {
                return seen;
            }
            seen = self.row(course, seen);
        }
        seen
    }

    // The exact relation. A cell has a place, so something was seen.
    fn relation(&self) -> Relation
        ensures { result ≡ exactly (stitch_set self.now.frame self.now.bytes.now) self.now.cell }
    {
        self.seen().unwrap_or(Relation::Outside)
    }
}

impl Frame {
    // How the bytes lie to a cell: Outside if it misses the bound, exact if it has at most 1,024 places, else Mixed.
    pub fn relation(&self, bytes: &[u8], cell: Cell) -> Relation
        ensures { result ≡ chart_relation self.now bytes.now cell }
    {
        if self
            .bound(bytes.len())
            .is_none_or(|bound| !cell.meets(bound))
        {
            Relation::Outside
        } else if cell.places() <= MOST_JUDGED {
            Judging {
                frame: *self,
                bytes,
                cell,
            }
            .relation()
        } else {
            Relation::Mixed
        }
    }
}
