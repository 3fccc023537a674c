// Two patterns or banks side by side.
ghost use Rattle.std.specs.Prelude.{◌≡◌, length};
ghost use Rattle.adapters.specs.Pairs.{side_by_side, owner_of, pair_meaning};
ghost use Rattle.adapters.specs.PairLaws.{pair_own, pair_facts};

use grid::{Cell, Place};
use pattern::{Bank, Pattern, Relation};

// Two patterns side by side: the leaves of the first, and then those of the second. No more than 65,535 of them count.
#[derive(Clone, Copy, PartialEq, Eq, Debug)]
pub struct Pair<A, B> {
    pub first: A,
    pub second: B,
}

// Whose leaf a number of the two is, with the number that it has there.
#[derive(Clone, Copy, PartialEq, Eq, Debug)]
enum Owner {
    First(u16),
    Second(u16),
    Neither,
}

impl<A: Pattern, B: Pattern> Pair<A, B> {
    // Whose leaf it is.
    fn owner(&self, leaf: u16) -> Owner
        ensures { result ≡ owner_of (length (A.Pattern.sets self.now.first)) leaf }
    {
        let count = self.first.leaves();
        if leaf == u16::MAX {
            Owner::Neither
        } else if leaf < count {
            Owner::First(leaf)
        } else {
            Owner::Second(leaf - count)
        }
    }
}

impl<A: Pattern, B: Pattern> Pattern for Pair<A, B> {
    ghost sets = { λ p. side_by_side (A.Pattern.sets p.first) (B.Pattern.sets p.second) };

    #[tactic(auto, using(crate::specs::PairLaws::length_pair))]
    fn leaves(&self) -> u16 {
        self.first.leaves().saturating_add(self.second.leaves())
    }

    #[tactic(auto, using(crate::specs::PairLaws::pair_set))]
    fn holds(&self, leaf: u16, place: Place) -> bool {
        match self.owner(leaf) {
            Owner::First(leaf) => self.first.holds(leaf, place),
            Owner::Second(leaf) => self.second.holds(leaf, place),
            Owner::Neither => false,
        }
    }
}

impl<A: Bank, B: Bank> Bank for Pair<A, B> {
    ghost meaning = { λ p. pair_meaning (A.Bank.meaning p.first) (B.Bank.meaning p.second) };

    ghost own = { λ p. pair_own (A.Bank.own p.first) (B.Bank.own p.second) };

    ghost facts = { λ p. pair_facts (A.Bank.meaning p.first) (B.Bank.meaning p.second) (A.Bank.facts p.first) (B.Bank.facts p.second) };

    fn bound(&self, leaf: u16) -> Option<Cell> {
        match self.owner(leaf) {
            Owner::First(leaf) => self.first.bound(leaf),
            Owner::Second(leaf) => self.second.bound(leaf),
            Owner::Neither => None,
        }
    }

    fn relation(&self, leaf: u16, cell: Cell) -> Relation {
        match self.owner(leaf) {
            Owner::First(leaf) => self.first.relation(leaf, cell),
            Owner::Second(leaf) => self.second.relation(leaf, cell),
            Owner::Neither => Relation::Outside,
        }
    }
}
