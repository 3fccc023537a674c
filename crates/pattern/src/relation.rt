use grid::Cell;
use std::fmt;

// How a set of places lies to a cell.
#[derive(Clone, Copy, PartialEq, Eq, Debug)]
pub enum Relation {
    // The set has every place of the cell.
    Inside,
    // The set has no place of the cell.
    Outside,
    // Some place may be in the set and some may be out of it.
    Mixed,
}

impl Relation {
    ghost use Rattle.std.specs.Prelude.{◌≡◌};
    ghost use Rattle.pattern.specs.Relations.{Exact, box_set, box_relation};

    // How the places of a possible cell lie to a cell: Inside if it holds all of it, Outside if the two do not meet, else
    // Mixed. That is exact.
    pub fn of_box(part: Option<Cell>, cell: Cell) -> Relation
        ensures is { result ≡ box_relation part cell }
        ensures exact { Exact result (box_set part) cell }
    {
        part.map_or(Relation::Outside, |part| {
            if cell.lies_in(part) {
                Relation::Inside
            } else if cell.meets(part) {
                Relation::Mixed
            } else {
                Relation::Outside
            }
        })
    }
}

impl fmt::Display for Relation {
    ghost use Rattle.std.specs.Prelude.{Some};
    ghost use Rattle.pattern.specs.Words.{word_of};

    ghost output = { λ r. Some (word_of r) };

    fn fmt<W: fmt::Write>(&self, f: &mut fmt::Formatter<W>) -> fmt::Result {
        f.write_str(match self {
            Relation::Inside => "inside",
            Relation::Outside => "outside",
            Relation::Mixed => "mixed",
        })
    }
}
