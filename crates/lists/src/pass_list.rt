// Pass lists: all passes together are one area.
ghost use Rattle.std.specs.Prelude.{◌≡◌};
ghost use Rattle.passes.specs.Passes.{passes_bound};

use grid::{Cell, Place};
use passes::Pass;
use pattern::{Area, Relation};

// The passes of a carriage program, in the caller's memory, with the hull of what they knit.
#[derive(Clone, Copy, PartialEq, Eq, Debug)]
pub struct PassList<'a> {
    passes: &'a [Pass],
    hull: Option<Cell>,
    ghost hulled: { hull ≡ passes_bound passes.now },
}

impl<'a> PassList<'a> {
    ghost use Rattle.lists.specs.PassLists.{listed};

    // The hull is worked out here, once.
    pub fn new(passes: &'a [Pass]) -> PassList<'a>
        ensures { listed result ≡ passes.now }
    {
        PassList {
            passes,
            hull: passes::hull(passes),
        }
    }
}

impl<'a> Area for PassList<'a> {
    ghost use Rattle.passes.specs.Passes.{passes_set, passes_bound, passes_relation};
    ghost use Rattle.passes.proofs.PassLaws.{passes_facts};
    ghost use Rattle.lists.specs.PassLists.{listed};

    ghost set = { λ l. passes_set (listed l) };

    ghost limits = { λ l. passes_bound (listed l) };

    ghost lies_to = { λ l. passes_relation (listed l) };

    ghost facts = { λ l. passes_facts (listed l) };

    fn has(&self, place: Place) -> bool {
        passes::some_holds(self.passes, place)
    }

    fn limits(&self) -> Option<Cell> {
        self.hull
    }

    fn lies_to(&self, cell: Cell) -> Relation {
        passes::relation(self.passes, cell)
    }
}
