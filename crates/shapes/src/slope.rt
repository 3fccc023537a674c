// Slopes: the places whose weighed sum stays within a limit.
ghost use Rattle.std.specs.Prelude.{◌≡◌, ◌^◌, pos, ◌*ℤ◌, neg_ℤ, ◌≤ℤ◌};
ghost use Rattle.grid.specs.Places.{at};
ghost use Rattle.pattern.specs.Relations.{Exact, exactly};
ghost use Rattle.shapes.specs.Bare.{bare_at};
ghost use Rattle.shapes.specs.Slopes.{under, slope_set, toward, corner, slope_relation};

use grid::{Axis, BarePlace, Cell, Coordinates, Place};
use pattern::Relation;

// The places whose needle, course and track, each times its factor here, add up to no more than the limit.
#[derive(Clone, Copy, PartialEq, Eq, Debug)]
pub struct Slope {
    pub needle: i16,
    pub course: i16,
    pub track: i16,
    pub limit: i64,
}

// A number times its factor, which is at most 2 ^ 31 in size.
fn product(factor: i16, number: u16) -> i64
    ensures is { result ≡ factor *ℤ pos number }
    ensures not_above { result ≤ℤ pos (2 ^ 31) }
    ensures not_below { neg_ℤ (pos (2 ^ 31)) ≤ℤ result }
{
    factor as i64 * number as i64
}

// Of two numbers the second, or the first if the factor is below zero.
fn number_toward(factor: i16, from: u16, to: u16) -> u16
    ensures { result ≡ toward factor from to }
{
    if factor < 0 { from } else { to }
}

impl Slope {
    // Whether the sum of three numbers is not above the limit.
    fn is_under<N: Coordinates>(&self, numbers: &N) -> bool
        ensures { result ≡ under self.now (N.along numbers.now) }
    {
        let needle = product(self.needle, numbers.on(Axis::Needle));
        let course = product(self.course, numbers.on(Axis::Course));
        let track = product(self.track, numbers.on(Axis::Track));
        needle + course + track <= self.limit
    }

    // The corner with such a number on every axis: of the greatest sum from a low to a high place, of the least from the
    // high to the low one.
    fn corner_toward(&self, from: Place, to: Place) -> BarePlace
        ensures { result ≡ bare_at (corner self.now (at from) (at to)) }
    {
        BarePlace {
            needle: number_toward(self.needle, from.needle(), to.needle()),
            course: number_toward(self.course, from.course(), to.course()),
            track: number_toward(self.track, from.track(), to.track()),
        }
    }

    // Whether the slope holds a place.
    pub fn holds(&self, place: Place) -> bool
        ensures { result ≡ slope_set self.now place }
    {
        self.is_under(&place)
    }

    // How the slope lies to a cell, by the two corners.
    fn relation_by_corners(&self, cell: Cell) -> Relation
        ensures { result ≡ slope_relation self.now cell }
    {
        if self.is_under(&self.corner_toward(cell.low(), cell.high())) {
            Relation::Inside
        } else if self.is_under(&self.corner_toward(cell.high(), cell.low())) {
            Relation::Mixed
        } else {
            Relation::Outside
        }
    }

    // How the slope lies to a cell; that is exact.
    pub fn relation(&self, cell: Cell) -> Relation
        ensures is { result ≡ exactly (slope_set self.now) cell }
        ensures exact { Exact result (slope_set self.now) cell }
    {
        self.relation_by_corners(cell)
    }
}
