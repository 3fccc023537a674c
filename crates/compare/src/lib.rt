// Two patterns compared place by place: the first leaf of the one with the first leaf of the other.
#![tactic(auto)]

ghost use Rattle.std.specs.Prelude.{◌≡◌, ◌≤◌, ◌↔◌, Decides};
ghost use Rattle.grid.specs.Cells.{places_of};
ghost use Rattle.grid.specs.Counts.{Counted};
ghost use Rattle.compare.specs.Compare.{first_leaf, held_by, Same};

use grid::{Cell, Place};
use pattern::Pattern;

// Who holds a place. What is counted is told by its name and not by a closure of the two answers, since the promise of a
// count speaks of the set of that name.
#[derive(Clone, Copy, PartialEq, Eq, Debug)]
pub enum Holder {
    Both,
    OnlyFirst,
    OnlySecond,
}

// Two patterns that are compared.
#[derive_where(Clone, Copy)]
#[derive(Debug)]
pub struct Comparison<'a, A, B> {
    pub first: &'a A,
    pub second: &'a B,
}

impl<A: Pattern, B: Pattern> Comparison<'_, A, B> {
    // Whether a place is held by both, or by one of the two alone.
    pub fn is_held_by(&self, place: Place, holder: Holder) -> bool
        ensures { result ≡ held_by holder (first_leaf (A.Pattern.sets self.now.first.now)) (first_leaf (B.Pattern.sets self.now.second.now)) place }
    {
        let in_first = self.first.holds(0, place);
        let in_second = self.second.holds(0, place);
        match holder {
            Holder::Both => in_first && in_second,
            Holder::OnlyFirst => in_first && !in_second,
            Holder::OnlySecond => !in_first && in_second,
        }
    }

    // How many places of the cell are so held, counted by halving the cell down to single places.
    #[tactic(auto, using(crate::proofs::Counting::single_counted))]
    pub fn count(&self, cell: Cell, holder: Holder) -> u64
        ensures counted { Counted (held_by holder (first_leaf (A.Pattern.sets self.now.first.now)) (first_leaf (B.Pattern.sets self.now.second.now))) cell result }
        ensures few { result ≤ places_of cell }
    {
        match cell.halve() {
            Some((lower, upper)) => self.count(lower, holder) + self.count(upper, holder),
            None => u64::from(self.is_held_by(cell.low(), holder)),
        }
    }

    // How many places of the cell only one of the two holds.
    fn differences(&self, cell: Cell) -> u64
        ensures { result ≡ 0 ↔ Same (first_leaf (A.Pattern.sets self.now.first.now)) (first_leaf (B.Pattern.sets self.now.second.now)) cell }
    {
        self.count(cell, Holder::OnlyFirst) + self.count(cell, Holder::OnlySecond)
    }

    // Whether the two hold the same places of the cell.
    pub fn agrees(&self, cell: Cell) -> bool
        ensures { Decides result (Same (first_leaf (A.Pattern.sets self.now.first.now)) (first_leaf (B.Pattern.sets self.now.second.now)) cell) }
    {
        self.differences(cell) == 0
    }
}
