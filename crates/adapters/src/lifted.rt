// Any pattern as a bank that knows nothing but single places.
ghost use Rattle.std.specs.Prelude.{refl};
ghost use Rattle.adapters.specs.Lifted.{lifted_meaning};
ghost use Rattle.adapters.specs.LiftedLaws.{lifted_facts};

use grid::{Cell, Place};
use pattern::{Bank, Pattern, Relation};

// A pattern as a bank: the bound of its leaves is the grid, and their relation is Mixed but for a single place.
#[derive(Clone, Copy, PartialEq, Eq, Debug)]
pub struct Lifted<P> {
    pub pattern: P,
}

impl<P: Pattern> Pattern for Lifted<P> {
    ghost sets = { λ l. P.Pattern.sets l.pattern };

    fn leaves(&self) -> u16 {
        self.pattern.leaves()
    }

    fn holds(&self, leaf: u16, place: Place) -> bool {
        self.pattern.holds(leaf, place)
    }
}

impl<P: Pattern> Bank for Lifted<P> {
    ghost meaning = { λ l. lifted_meaning (P.Pattern.sets l.pattern) };

    ghost own = { λ l. refl };

    ghost facts = { λ l. lifted_facts (P.Pattern.sets l.pattern) };

    fn bound(&self, leaf: u16) -> Option<Cell> {
        if leaf < self.pattern.leaves() {
            Some(Cell::grid())
        } else {
            None
        }
    }

    fn relation(&self, leaf: u16, cell: Cell) -> Relation {
        if leaf >= self.pattern.leaves() {
            Relation::Outside
        } else if !cell.is_one_place() {
            Relation::Mixed
        } else if self.pattern.holds(leaf, cell.low()) {
            Relation::Inside
        } else {
            Relation::Outside
        }
    }
}
