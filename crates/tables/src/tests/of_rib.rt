// The rib, the example of a bank, as a table. The expected values are worked out by hand from its rule.
use super::{Ends, GRID, cell, possible};
use pattern::{Bank, Pattern, Relation};
use rib::Rib;
use std::test::Fail;

// A leaf and a cell; the relation of the rib, and whether it holds the low place.
const CELLS: [(u16, Ends, Relation, bool); 8] = [
    (0, [4, 0, 0, 4, 65535, 7], Relation::Inside, true),
    (0, [5, 0, 0, 5, 65535, 7], Relation::Outside, false),
    (0, [0, 9, 3, 0, 9, 3], Relation::Inside, true),
    (0, [4095, 9, 3, 4095, 9, 3], Relation::Outside, false),
    (0, [4, 9, 3, 5, 9, 3], Relation::Mixed, true),
    (0, GRID, Relation::Mixed, true),
    (1, [4, 0, 0, 4, 0, 0], Relation::Outside, false),
    (65535, GRID, Relation::Outside, false),
];

#[test]
fn ribs_have_every_other_needle(rt: HostRuntime) -> Result<(), Fail> {
    let bank = Rib {};
    assert_eq!(rt; bank.leaves(), 1);
    assert_eq!(rt; possible(bank.bound(0)), Some(GRID));
    assert_eq!(rt; possible(bank.bound(1)), None);
    for (leaf, at, relation, holds) in CELLS {
        let cell = cell(at)?;
        assert_eq!(rt; bank.relation(leaf, cell), relation);
        assert_eq!(rt; bank.holds(leaf, cell.low()), holds);
    }
    Ok(())
}
