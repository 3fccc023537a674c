// Carriage passes: the places that they knit, the hull of these, and how they lie to a cell.
#![tactic(auto)]

mod pass;

ghost use Rattle.std.specs.Prelude.{◌≡◌};
ghost use Rattle.passes.specs.Passes.{pass_set, passes_set, pass_box, passes_bound, HullOfPasses, passes_relation};

use grid::{BarePlace, Cell, Place};
pub use pass::Pass;
use pattern::Relation;

impl Pass {
    // Whether the pass knits at a place.
    pub fn holds(&self, place: Place) -> bool
        ensures { result ≡ pass_set self.now place }
    {
        place.course() == self.course
            && place.track() == self.track
            && (self.from..=self.to).contains(&place.needle())
    }

    // The pass cut by the grid: a cell, or none.
    pub fn on_grid(&self) -> Option<Cell>
        ensures { result ≡ pass_box self.now }
    {
        let low = BarePlace {
            needle: self.from,
            course: self.course,
            track: self.track,
        };
        let high = BarePlace {
            needle: self.to,
            ..low
        };
        Cell::from_box(low, high)
    }
}

// Whether one of the passes knits at a place.
pub fn some_holds(passes: &[Pass], place: Place) -> bool
    ensures { result ≡ passes_set passes.now place }
{
    passes.iter().any(|pass| pass.holds(place))
}

// The hull of the passes, each cut by the grid.
pub fn hull(passes: &[Pass]) -> Option<Cell>
    ensures is { result ≡ passes_bound passes.now }
    ensures law { HullOfPasses passes.now result }
{
    passes
        .iter()
        .fold(None, |hull, pass| Cell::hull(hull, pass.on_grid()))
}

// How the passes lie to a cell: Inside if one pass holds all of it, Outside if none meets it, else Mixed.
pub fn relation(passes: &[Pass], cell: Cell) -> Relation
    ensures { result ≡ passes_relation passes.now cell }
{
    // One scan that stops at the first pass that holds the cell: a rule of the project.
    let mut seen = Relation::Outside;
    for pass in passes {
        match Relation::of_box(pass.on_grid(), cell) {
            Relation::Inside => return Relation::Inside,
            Relation::Mixed => seen = Relation::Mixed,
            Relation::Outside => {}
        }
    }
    seen
}
