// Halving a cell, and the sizes that halving brings down.
ghost use Rattle.std.specs.Prelude.{◌≡◌, ◌+◌, ◌/◌, ◌^◌, ◌≤◌};
ghost use Rattle.grid.specs.declared.axis.Axis.{Axis};
ghost use Rattle.grid.specs.Axes.{top, put};
ghost use Rattle.grid.specs.Places.{at};
ghost use Rattle.grid.specs.Cells.{lo, side, places_of, longer, longest_of, halvings, halvings_of, halves_of};
ghost use Rattle.grid.specs.Counts.{everywhere, Counted};
ghost use Rattle.grid.specs.Laws.{Least, HalvesLaw};

use crate::axis::Axis;
use crate::cell::Cell;
use crate::coordinates::Coordinates;
use crate::place::Place;

// The place with another number on an axis.
fn moved(place: Place, axis: Axis, value: u16) -> Place
    requires { value ≤ top axis }
    ensures { (x : Axis) → at result x ≡ put axis value (at place) x }
{
    Place::from_fn(|x| if x == axis { value } else { place.on(x) })
}

impl Cell {
    // The number of places on one axis.
    fn side(&self, axis: Axis) -> u32
        ensures { result ≡ side self.now axis }
    {
        (self.high.on(axis) - self.low.on(axis)) as u32 + 1
    }

    // Of two axes the one with the longer side, the first if they are equal.
    fn longer(&self, first: Axis, second: Axis) -> Axis
        ensures { result ≡ longer self.now first second }
    {
        if self.side(second) <= self.side(first) {
            first
        } else {
            second
        }
    }

    // The axis of the longest side, in the order of the axes.
    fn longest(&self) -> Axis
        ensures { result ≡ longest_of self.now }
    {
        self.longer(self.longer(Axis::Needle, Axis::Course), Axis::Track)
    }

    // Where the upper half begins, if the cell is cut across the axis.
    fn middle(&self, axis: Axis) -> u16
        ensures { result ≡ lo self.now axis + side self.now axis / 2 }
    {
        self.low.on(axis) + (self.side(axis) / 2) as u16
    }

    // How often a side can be halved at most.
    fn side_halvings(&self, axis: Axis) -> u32
        ensures is { result ≡ halvings (side self.now axis) }
        ensures most { result ≤ 16 }
    {
        let places = self.side(axis);
        if places == 1 {
            0
        } else {
            (places - 1).ilog2() + 1
        }
    }

    // The number of places.
    #[tactic(auto, using(crate::proofs::Meanings::most_told, crate::proofs::PlaceCount::counted_told))]
    pub fn places(&self) -> u64
        ensures is { result ≡ places_of self.now }
        ensures most { result ≤ 2 ^ 31 }
        ensures counted { Counted everywhere self.now result }
    {
        self.side(Axis::Needle) as u64
            * self.side(Axis::Course) as u64
            * self.side(Axis::Track) as u64
    }

    // How often the cell can be halved at most, until one place is left.
    pub fn halvings(&self) -> u32
        ensures is { result ≡ halvings_of self.now }
        ensures most { result ≤ 31 }
        ensures least { (x : Axis) → Least (side self.now x) (halvings (side self.now x)) }
    {
        self.side_halvings(Axis::Needle)
            + self.side_halvings(Axis::Course)
            + self.side_halvings(Axis::Track)
    }

    // The lower and the upper half, cut across the longest side; none if there is one place only.
    pub fn halve(&self) -> Option<(Cell, Cell)>
        ensures is { result ≡ halves_of self.now }
        ensures law { HalvesLaw self.now result }
    {
        if self.is_one_place() {
            return None;
        }
        let axis = self.longest();
        let middle = self.middle(axis);
        let lower = Cell {
            low: self.low,
            high: moved(self.high, axis, middle - 1),
        };
        let upper = Cell {
            low: moved(self.low, axis, middle),
            high: self.high,
        };
        Some((lower, upper))
    }
}
