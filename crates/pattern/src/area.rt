// Areas: sets of places, each of which is a bank of one leaf.
ghost use Rattle.std.specs.Prelude.{◌≡◌, [], ◌∷◌, Option, refl};
ghost use Rattle.grid.specs.declared.cell.Cell.{Cell};
ghost use Rattle.pattern.specs.declared.relation.Relation.{Relation};
ghost use Rattle.pattern.specs.Sets.{PlaceSet};
ghost use Rattle.pattern.specs.Banks.{Facts, one_leaf};

use crate::relation::Relation;
use crate::{Bank, Pattern};
use grid::{Cell, Place};

// A set of places that can tell where it lies. It knows nothing of leaves: as a bank it is the leaf number 0, the only one.
// Its calls have names of their own, since an area also has a bank's, which ask for the number of a leaf.
pub trait Area {
    // The places.
    ghost set: { Self → PlaceSet };

    // A cell that holds them all, or none.
    ghost limits: { Self → Option Cell };

    // How they lie to any cell.
    ghost lies_to: { Self → Cell → Relation };

    // Whether a place is in the set.
    fn has(&self, place: Place) -> bool
        ensures { result ≡ set self.now place };

    // A cell that holds all places of the set, or none if it is empty.
    fn limits(&self) -> Option<Cell>
        ensures { result ≡ limits self.now };

    // How the set lies to a cell.
    fn lies_to(&self, cell: Cell) -> Relation
        ensures { result ≡ lies_to self.now cell };

    // What every area owes: what a bank of this leaf does.
    ghost facts: { (a : Self) → Facts (one_leaf (set a) (limits a) (lies_to a)) };
}

impl<A: Area> Pattern for A {
    ghost sets = { λ a. A.Area.set a ∷ [] };

    fn leaves(&self) -> u16 {
        1
    }

    fn holds(&self, leaf: u16, place: Place) -> bool {
        leaf == 0 && self.has(place)
    }
}

impl<A: Area> Bank for A {
    ghost meaning = { λ a. one_leaf (A.Area.set a) (A.Area.limits a) (A.Area.lies_to a) };

    ghost own = { λ a. refl };

    ghost facts = { λ a. A.Area.facts a };

    fn bound(&self, leaf: u16) -> Option<Cell> {
        if leaf == 0 { self.limits() } else { None }
    }

    fn relation(&self, leaf: u16, cell: Cell) -> Relation {
        if leaf == 0 {
            self.lies_to(cell)
        } else {
            Relation::Outside
        }
    }
}
