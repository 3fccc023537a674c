// What patterns and banks of stitch places are, whatever they are made of.
#![tactic(auto)]

mod area;
mod relation;

ghost use Rattle.std.specs.Prelude.{◌≡◌, List, length};
ghost use Rattle.pattern.specs.Banks.{Meaning, Facts};
ghost use Rattle.pattern.specs.Sets.{PlaceSet, leaf_set};

pub use area::Area;
use grid::{Cell, Place};
pub use relation::Relation;

// Leaves, numbered from 0, each a set of places.
pub trait Pattern {
    // The leaves' sets in order.
    ghost sets: { Self → List PlaceSet };

    // The number of leaves.
    fn leaves(&self) -> u16
        ensures { result ≡ length (sets self.now) };

    // Whether a leaf has a place in its set; past the last leaf the answer is no.
    fn holds(&self, leaf: u16, place: Place) -> bool
        ensures { result ≡ leaf_set (sets self.now) leaf place };
}

// A pattern that can also tell where its leaves lie. Its answers are read off its meaning, so equal questions get equal
// answers, and the meaning's sets are the pattern's.
pub trait Bank: Pattern {
    // The leaves' sets once more, and with each leaf its bound and its relation to any cell.
    ghost meaning: { Self → Meaning };

    // A cell that holds all places of a leaf, or none if the leaf is empty.
    fn bound(&self, leaf: u16) -> Option<Cell>
        ensures is { result ≡ (meaning self.now).bound leaf }
        ensures own { (meaning self.now).sets ≡ Self.Pattern.sets self.now };

    // How a leaf lies to a cell.
    fn relation(&self, leaf: u16, cell: Cell) -> Relation
        ensures is { result ≡ (meaning self.now).relation leaf cell }
        ensures own { (meaning self.now).sets ≡ Self.Pattern.sets self.now };

    // What every bank owes: its meaning is about the pattern's own sets, and is true.
    ghost own: { (b : Self) → (meaning b).sets ≡ Self.Pattern.sets b };

    ghost facts: { (b : Self) → Facts (meaning b) };
}
