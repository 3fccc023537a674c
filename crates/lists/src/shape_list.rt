// Shape lists: each shape is a leaf.
ghost use Rattle.std.specs.Prelude.{◌≡◌, refl};
ghost use Rattle.pattern.specs.Sets.{leaf_set};
ghost use Rattle.shapes.specs.Shapes.{possible_set, possible_bound};
ghost use Rattle.lists.specs.ShapeListLaws.{shapes_facts};
ghost use Rattle.lists.specs.ShapeLists.{counted, bound_at, listed, leaves_of, meaning_of};

use grid::{Cell, Place};
use pattern::{Bank, Pattern, Relation};
use shapes::Shape;

// The most leaves that a pattern has.
const MOST_LEAVES: usize = u16::MAX as usize;

// Shapes in the caller's memory; only the first 65,535 of them count.
#[derive(Clone, Copy, PartialEq, Eq, Debug)]
pub struct ShapeList<'a> {
    shapes: &'a [Shape],
}

impl<'a> ShapeList<'a> {
    pub fn new(shapes: &'a [Shape]) -> ShapeList<'a>
        ensures { listed result ≡ shapes.now }
    {
        ShapeList { shapes }
    }

    // The shapes that count.
    #[tactic(auto, using(crate::specs::ShapeListLaws::counted_taken))]
    fn counted(&self) -> &'a [Shape]
        ensures { result.now ≡ counted (listed self.now) }
    {
        &self.shapes[..self.shapes.len().min(MOST_LEAVES)]
    }

    // The shape of a leaf, if the leaf is there.
    #[tactic(auto, using(crate::specs::ShapeListLaws::set_told, crate::specs::ShapeListLaws::bound_told))]
    fn shape(&self, leaf: u16) -> Option<Shape>
        ensures set { possible_set result ≡ leaf_set (leaves_of self.now) leaf }
        ensures bound { possible_bound result ≡ bound_at (listed self.now) leaf }
    {
        self.counted().get(leaf as usize).copied()
    }
}

impl<'a> Pattern for ShapeList<'a> {
    ghost sets = { leaves_of };

    #[tactic(auto, using(crate::specs::ShapeListLaws::length_counted, crate::specs::ShapeListLaws::counting_length))]
    fn leaves(&self) -> u16 {
        self.counted().len() as u16
    }

    fn holds(&self, leaf: u16, place: Place) -> bool {
        self.shape(leaf).is_some_and(|shape| shape.holds(place))
    }
}

impl<'a> Bank for ShapeList<'a> {
    ghost meaning = { meaning_of };

    ghost own = { λ l. refl };

    ghost facts = { λ l. shapes_facts (listed l) };

    fn bound(&self, leaf: u16) -> Option<Cell> {
        self.shape(leaf).and_then(|shape| shape.bound())
    }

    #[tactic(auto, using(pattern::proofs::ExactLaws::exactly_nowhere))]
    fn relation(&self, leaf: u16, cell: Cell) -> Relation {
        self.shape(leaf)
            .map_or(Relation::Outside, |shape| shape.relation(cell))
    }
}
