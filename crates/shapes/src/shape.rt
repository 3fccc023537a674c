// Shapes: blocks and slopes alike.
ghost use Rattle.std.specs.Prelude.{◌≡◌};
ghost use Rattle.pattern.specs.Relations.{Exact, exactly};
ghost use Rattle.shapes.specs.Shapes.{shape_set, shape_bound};

use crate::block::Block;
use crate::slope::Slope;
use grid::{Cell, Place};
use pattern::Relation;

#[derive(Clone, Copy, PartialEq, Eq, Debug)]
pub enum Shape {
    Block(Block),
    Slope(Slope),
}

impl Shape {
    // Whether the shape holds a place.
    pub fn holds(&self, place: Place) -> bool
        ensures { result ≡ shape_set self.now place }
    {
        match self {
            Shape::Block(block) => block.holds(place),
            Shape::Slope(slope) => slope.holds(place),
        }
    }

    // A cell that holds all places of the shape, or none if the shape is empty: of a block the block cut by the grid, of a
    // slope the grid.
    pub fn bound(&self) -> Option<Cell>
        ensures { result ≡ shape_bound self.now }
    {
        match self {
            Shape::Block(block) => block.bound(),
            Shape::Slope(_) => Some(Cell::grid()),
        }
    }

    // How the shape lies to a cell; that is exact.
    pub fn relation(&self, cell: Cell) -> Relation
        ensures is { result ≡ exactly (shape_set self.now) cell }
        ensures exact { Exact result (shape_set self.now) cell }
    {
        match self {
            Shape::Block(block) => block.relation(cell),
            Shape::Slope(slope) => slope.relation(cell),
        }
    }
}
