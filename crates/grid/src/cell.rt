ghost use Rattle.grid.specs.Axes.{Below};
ghost use Rattle.grid.specs.Places.{at};

use crate::axis::Axis;
use crate::bare::BarePlace;
use crate::coordinates::is_below;
use crate::place::Place;
use crate::refusal::Refusal;
use std::fmt;

// A box of places, from its low to its high place, both included.
#[derive(Clone, Copy, PartialEq, Eq, Debug)]
pub struct Cell {
    pub(crate) low: Place,
    pub(crate) high: Place,
    ghost ordered: { Below (at low) (at high) },
}

impl Cell {
    ghost use Rattle.std.specs.Prelude.{◌≡◌, ◌&&◌, Decides};
    ghost use Rattle.grid.specs.Axes.{below};
    ghost use Rattle.grid.specs.Cells.{In, inside, within, meet, single, cell_from, grid_cell, box_of, cut_of, hull_of};
    ghost use Rattle.grid.specs.Laws.{BoxLaw, CutLaw, HullLaw, WithinLaw};
    ghost use Rattle.grid.specs.Refusals.{numbers, numbered, workspace_of};

    // The first place is not above the second, nor the third above the fourth. One call, because the law of an answer did not
    // close for the ways through a test of two parts.
    fn are_below(place: Place, other: Place, third: Place, fourth: Place) -> bool
        ensures { result ≡ (below (at place) (at other) && below (at third) (at fourth)) }
    {
        is_below(&place, &other) && is_below(&third, &fourth)
    }

    // The cell from one place to another, if the first is not above the second.
    fn between(low: Place, high: Place) -> Option<Cell>
        ensures { result ≡ cell_from (at low) (at high) }
    {
        if is_below(&low, &high) {
            Some(Cell { low, high })
        } else {
            None
        }
    }

    // The cell with these ends; refused if a number is off the grid, or else if a low end is above its high end.
    #[tactic(auto, using(crate::proofs::RefusalLaws::upside_down, crate::proofs::RefusalLaws::workspace_between))]
    pub fn workspace(low: BarePlace, high: BarePlace) -> Result<Cell, Refusal>
        ensures { numbered result ≡ workspace_of low high }
    {
        let low = Place::new(low)?;
        let high = Place::new(high)?;
        Cell::between(low, high).ok_or(Refusal::UpsideDown)
    }

    // The whole grid.
    pub fn grid() -> Cell
        ensures is { result ≡ grid_cell }
        ensures law { (p : Place) → In p result }
    {
        Cell {
            low: Place::from_fn(|_| 0),
            high: Place::from_fn(Axis::last),
        }
    }

    // The cell of the grid's places from one bare place to another, if it has any there.
    pub fn from_box(low: BarePlace, high: BarePlace) -> Option<Cell>
        ensures is { result ≡ box_of (numbers low) (numbers high) }
        ensures law { BoxLaw (numbers low) (numbers high) result }
    {
        let low = Place::new(low).ok()?;
        Cell::between(low, Place::clipped(high))
    }

    // The place with the low end on every axis.
    pub fn low(&self) -> Place
        ensures { result ≡ self.now.low }
    {
        self.low
    }

    // The place with the high end on every axis.
    pub fn high(&self) -> Place
        ensures { result ≡ self.now.high }
    {
        self.high
    }

    // Whether a place lies in the cell.
    #[tactic(auto, using(crate::proofs::Meanings::inside_told))]
    pub fn holds(&self, place: Place) -> bool
        ensures is { result ≡ inside place self.now }
        ensures law { Decides result (In place self.now) }
    {
        Cell::are_below(self.low, place, place, self.high)
    }

    // Whether every place of the cell lies in the other.
    #[tactic(auto, using(crate::proofs::Meanings::within_law))]
    pub fn lies_in(&self, other: Cell) -> bool
        ensures is { result ≡ within self.now other }
        ensures law { WithinLaw self.now other result }
    {
        Cell::are_below(other.low, self.low, self.high, other.high)
    }

    // Whether some place lies in both cells.
    pub fn meets(&self, other: Cell) -> bool
        ensures is { result ≡ meet self.now other }
        ensures law { Decides result ((p : Place) × (In p self.now × In p other)) }
    {
        Cell::are_below(self.low, other.high, other.low, self.high)
    }

    // Whether the cell has one place only.
    #[tactic(auto, using(crate::proofs::Meanings::decides_single, crate::proofs::PlaceLaws::place_ext))]
    pub fn is_one_place(&self) -> bool
        ensures is { result ≡ single self.now }
        ensures law { Decides result ((p : Place) → In p self.now → p ≡ self.now.low) }
    {
        is_below(&self.high, &self.low)
    }

    // The cell of the places that lie in both, if there are any.
    pub fn cut(&self, other: Cell) -> Option<Cell>
        ensures is { result ≡ cut_of self.now other }
        ensures law { CutLaw self.now other result }
    {
        Cell::between(self.low.greater(other.low), self.high.lesser(other.high))
    }

    // The smallest cell around both; where one is missing, the other.
    pub fn hull(one: Option<Cell>, other: Option<Cell>) -> Option<Cell>
        ensures is { result ≡ hull_of one other }
        ensures law { HullLaw one other result }
    {
        let (Some(a), Some(b)) = (one, other) else {
            return one.or(other);
        };
        Some(Cell {
            low: a.low.lesser(b.low),
            high: a.high.greater(b.high),
        })
    }
}

impl fmt::Display for Cell {
    ghost use Rattle.std.specs.Prelude.{Some};
    ghost use Rattle.grid.specs.Texts.{ends_of};

    ghost output = { λ c. Some (ends_of c) };

    fn fmt<W: fmt::Write>(&self, f: &mut fmt::Formatter<W>) -> fmt::Result {
        let low = self.low;
        let high = self.high;
        write!(
            f,
            "needles {} to {}, courses {} to {}, tracks {} to {}",
            low.needle(),
            high.needle(),
            low.course(),
            high.course(),
            low.track(),
            high.track()
        )
    }
}
