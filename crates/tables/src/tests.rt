// The rules of the grid and of every kind of leaf, as tables. Places and cells are written as rows of numbers: a cell as
// its six ends, low needle, course and track, then high needle, course and track.
mod of_adapters;
mod of_charts;
mod of_grid;
mod of_passes;
mod of_pieces;
mod of_rib;
mod of_shapes;

use grid::{BarePlace, Cell, Place, Refusal};

type Ends = [u16; 6];

const GRID: Ends = [0, 0, 0, 4095, 65535, 7];

fn bare(needle: u16, course: u16, track: u16) -> BarePlace {
    BarePlace {
        needle,
        course,
        track,
    }
}

// The low and the high place of a row.
fn corners(ends: Ends) -> (BarePlace, BarePlace) {
    let [needle, course, track, last_needle, last_course, last_track] = ends;
    (
        bare(needle, course, track),
        bare(last_needle, last_course, last_track),
    )
}

fn place(numbers: [u16; 3]) -> Result<Place, Refusal> {
    let [needle, course, track] = numbers;
    Place::new(bare(needle, course, track))
}

fn cell(ends: Ends) -> Result<Cell, Refusal> {
    let (low, high) = corners(ends);
    Cell::workspace(low, high)
}

fn ends(cell: Cell) -> Ends {
    let low = cell.low();
    let high = cell.high();
    [
        low.needle(),
        low.course(),
        low.track(),
        high.needle(),
        high.course(),
        high.track(),
    ]
}

fn possible(cell: Option<Cell>) -> Option<Ends> {
    cell.map(ends)
}
