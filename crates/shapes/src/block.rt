// Blocks: boxes of places, given by bare numbers.
ghost use Rattle.std.specs.Prelude.{◌≡◌};
ghost use Rattle.pattern.specs.Relations.{Exact, exactly};
ghost use Rattle.shapes.specs.Blocks.{block_set, block_bound};

use grid::{BarePlace, Cell, Place, is_below};
use pattern::Relation;

// The places that are on no axis below the low or above the high end. Where a low end is above its high end there are
// none. Ends may lie off the grid.
#[derive(Clone, Copy, PartialEq, Eq, Debug)]
pub struct Block {
    pub low: BarePlace,
    pub high: BarePlace,
}

impl Block {
    // Whether the block holds a place.
    pub fn holds(&self, place: Place) -> bool
        ensures { result ≡ block_set self.now place }
    {
        is_below(&self.low, &place) && is_below(&place, &self.high)
    }

    // The block cut by the grid, or none if the grid has no place there.
    #[tactic(auto, unfolding(crate::specs::Blocks::bound_between))]
    pub fn bound(&self) -> Option<Cell>
        ensures { result ≡ block_bound self.now }
    {
        Cell::from_box(self.low, self.high)
    }

    // How the block lies to a cell; that is exact.
    pub fn relation(&self, cell: Cell) -> Relation
        ensures is { result ≡ exactly (block_set self.now) cell }
        ensures exact { Exact result (block_set self.now) cell }
    {
        Relation::of_box(self.bound(), cell)
    }
}
