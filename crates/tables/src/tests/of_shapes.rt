// The edges of every rule of shapes, as tables. A block or a cell is written as its six ends: low needle, course and
// track, then high needle, course and track. The expected values are worked out by hand from the rules.
use super::{Ends, GRID, cell, corners, place, possible};
use grid::{BarePlace, Cell, Refusal};
use lists::ShapeList;
use pattern::{Bank, Pattern, Relation};
use shapes::{Block, Shape, Slope};
use std::process::Abort;
use std::test::Fail;

// The ends of a block, and those of its bound.
const BOUNDS: [(Ends, Option<Ends>); 13] = [
    ([1, 2, 3, 4, 5, 6], Some([1, 2, 3, 4, 5, 6])),
    ([7, 8, 1, 7, 8, 1], Some([7, 8, 1, 7, 8, 1])),
    ([5, 2, 3, 4, 5, 6], None),
    ([1, 6, 3, 4, 5, 6], None),
    ([1, 2, 7, 4, 5, 6], None),
    ([0, 0, 0, 65535, 65535, 65535], Some(GRID)),
    ([1, 2, 3, 4096, 5, 6], Some([1, 2, 3, 4095, 5, 6])),
    ([1, 2, 3, 4, 5, 8], Some([1, 2, 3, 4, 5, 7])),
    (
        [4095, 65535, 7, 65535, 65535, 65535],
        Some([4095, 65535, 7, 4095, 65535, 7]),
    ),
    ([4096, 0, 0, 4096, 65535, 7], None),
    ([4096, 0, 0, 65535, 65535, 65535], None),
    ([0, 0, 8, 4095, 65535, 8], None),
    ([0, 0, 8, 65535, 65535, 65535], None),
];

// The ends of a block, a place, and whether the block holds it.
const BLOCK_PLACES: [(Ends, [u16; 3], bool); 18] = [
    ([10, 20, 1, 12, 22, 3], [10, 20, 1], true),
    ([10, 20, 1, 12, 22, 3], [12, 22, 3], true),
    ([10, 20, 1, 12, 22, 3], [12, 20, 2], true),
    ([10, 20, 1, 12, 22, 3], [9, 21, 2], false),
    ([10, 20, 1, 12, 22, 3], [13, 21, 2], false),
    ([10, 20, 1, 12, 22, 3], [11, 19, 2], false),
    ([10, 20, 1, 12, 22, 3], [11, 23, 2], false),
    ([10, 20, 1, 12, 22, 3], [11, 21, 0], false),
    ([10, 20, 1, 12, 22, 3], [11, 21, 4], false),
    ([7, 8, 1, 7, 8, 1], [7, 8, 1], true),
    ([7, 8, 1, 7, 8, 1], [7, 8, 2], false),
    ([5, 2, 3, 4, 5, 6], [5, 3, 4], false),
    ([5, 2, 3, 4, 5, 6], [4, 3, 4], false),
    ([1, 6, 3, 4, 5, 6], [2, 6, 4], false),
    ([1, 2, 7, 4, 5, 6], [2, 3, 7], false),
    ([4096, 0, 0, 65535, 65535, 65535], [4095, 0, 0], false),
    ([0, 0, 8, 65535, 65535, 65535], [0, 0, 7], false),
    (
        [4095, 65535, 7, 65535, 65535, 65535],
        [4095, 65535, 7],
        true,
    ),
];

// The ends of a block and of a cell, and how the block lies to the cell.
const BLOCK_CELLS: [(Ends, Ends, Relation); 17] = [
    (
        [10, 20, 1, 12, 22, 3],
        [10, 20, 1, 12, 22, 3],
        Relation::Inside,
    ),
    (
        [10, 20, 1, 12, 22, 3],
        [11, 21, 2, 11, 21, 2],
        Relation::Inside,
    ),
    (
        [10, 20, 1, 12, 22, 3],
        [9, 20, 1, 12, 22, 3],
        Relation::Mixed,
    ),
    (
        [10, 20, 1, 12, 22, 3],
        [10, 20, 1, 12, 23, 3],
        Relation::Mixed,
    ),
    (
        [10, 20, 1, 12, 22, 3],
        [10, 20, 0, 12, 22, 3],
        Relation::Mixed,
    ),
    (
        [10, 20, 1, 12, 22, 3],
        [12, 22, 3, 13, 23, 4],
        Relation::Mixed,
    ),
    (
        [10, 20, 1, 12, 22, 3],
        [13, 20, 1, 14, 22, 3],
        Relation::Outside,
    ),
    (
        [10, 20, 1, 12, 22, 3],
        [0, 23, 0, 4095, 65535, 7],
        Relation::Outside,
    ),
    (
        [10, 20, 1, 12, 22, 3],
        [10, 20, 0, 12, 22, 0],
        Relation::Outside,
    ),
    ([10, 20, 1, 12, 22, 3], GRID, Relation::Mixed),
    ([5, 2, 3, 4, 5, 6], GRID, Relation::Outside),
    ([1, 6, 3, 4, 5, 6], [4, 5, 6, 4, 6, 6], Relation::Outside),
    ([1, 2, 7, 4, 5, 6], [1, 2, 6, 4, 5, 7], Relation::Outside),
    ([4096, 0, 0, 65535, 65535, 65535], GRID, Relation::Outside),
    ([0, 0, 0, 65535, 65535, 65535], GRID, Relation::Inside),
    (
        [4095, 0, 0, 65535, 65535, 65535],
        [4095, 0, 0, 4095, 65535, 7],
        Relation::Inside,
    ),
    ([4095, 0, 0, 65535, 65535, 65535], GRID, Relation::Mixed),
];

#[test]
fn blocks_are_cut_by_the_grid(rt: HostRuntime) {
    for (given, bound) in BOUNDS {
        assert_eq!(rt; possible(Shape::Block(block(given)).bound()), bound);
    }
}

#[test]
fn blocks_hold_their_places(rt: HostRuntime) -> Result<(), Fail> {
    for (given, at, holds) in BLOCK_PLACES {
        assert_eq!(rt; Shape::Block(block(given)).holds(place(at)?), holds);
    }
    Ok(())
}

#[test]
fn blocks_lie_to_cells(rt: HostRuntime) -> Result<(), Fail> {
    for (given, at, relation) in BLOCK_CELLS {
        assert_eq!(rt; Shape::Block(block(given)).relation(cell(at)?), relation);
    }
    Ok(())
}

// The factors of a slope, its limit, a place, and whether the slope holds it.
const SLOPE_PLACES: [([i16; 3], i64, [u16; 3], bool); 13] = [
    ([1, -1, 0], 0, [3, 3, 0], true),
    ([1, -1, 0], 0, [4, 3, 0], false),
    ([1, -1, 0], 0, [3, 4, 7], true),
    ([2, 3, 5], 90, [10, 20, 2], true),
    ([2, 3, 5], 89, [10, 20, 2], false),
    ([-2, -3, -5], -90, [10, 20, 2], true),
    ([-2, -3, -5], -91, [10, 20, 2], false),
    ([0, 0, 0], 0, [4095, 65535, 7], true),
    ([0, 0, 0], -1, [0, 0, 0], false),
    (
        [-32768, -32768, -32768],
        -2281865216,
        [4095, 65535, 7],
        true,
    ),
    (
        [-32768, -32768, -32768],
        -2281865217,
        [4095, 65535, 7],
        false,
    ),
    ([32767, 32767, 32767], 2281795579, [4095, 65535, 7], true),
    ([32767, 32767, 32767], 2281795578, [4095, 65535, 7], false),
];

// The factors of a slope, its limit, a cell, and how the slope lies to it.
const SLOPE_CELLS: [([i16; 3], i64, Ends, Relation); 7] = [
    ([1, -1, 0], 0, [3, 3, 0, 3, 3, 0], Relation::Inside),
    ([1, -1, 0], 0, [3, 3, 0, 4, 3, 0], Relation::Mixed),
    ([1, -1, 0], 0, [4, 3, 0, 4, 3, 0], Relation::Outside),
    (
        [1, -1, 0],
        0,
        [0, 4095, 0, 4095, 65535, 7],
        Relation::Inside,
    ),
    ([1, -1, 0], 0, [0, 4094, 0, 4095, 65535, 7], Relation::Mixed),
    ([0, 0, 0], 0, GRID, Relation::Inside),
    ([0, 0, 0], -1, GRID, Relation::Outside),
];

// The factors of a slope, a cell, and the least and the greatest sum in the cell.
const EXTREMES: [([i16; 3], Ends, i64, i64); 14] = [
    ([2, 3, 5], [10, 20, 2, 11, 21, 3], 90, 100),
    ([2, 3, -5], [10, 20, 2, 11, 21, 3], 65, 75),
    ([2, -3, 5], [10, 20, 2, 11, 21, 3], -33, -23),
    ([2, -3, -5], [10, 20, 2, 11, 21, 3], -58, -48),
    ([-2, 3, 5], [10, 20, 2, 11, 21, 3], 48, 58),
    ([-2, 3, -5], [10, 20, 2, 11, 21, 3], 23, 33),
    ([-2, -3, 5], [10, 20, 2, 11, 21, 3], -75, -65),
    ([-2, -3, -5], [10, 20, 2, 11, 21, 3], -100, -90),
    ([0, 0, 1], [10, 20, 2, 11, 21, 3], 2, 3),
    ([0, -1, 0], [10, 20, 2, 11, 21, 3], -21, -20),
    ([32767, 32767, 32767], GRID, 0, 2281795579),
    ([-32768, -32768, -32768], GRID, -2281865216, 0),
    ([32767, -32768, 32767], GRID, -2147450880, 134410234),
    ([-32768, 32767, -32768], GRID, -134414336, 2147385345),
];

#[test]
fn slopes_hold_their_places(rt: HostRuntime) -> Result<(), Fail> {
    for (factors, limit, at, holds) in SLOPE_PLACES {
        assert_eq!(rt;
            Shape::Slope(slope(factors, limit)).holds(place(at)?),
            holds
        );
    }
    Ok(())
}

#[test]
fn slopes_lie_to_cells(rt: HostRuntime) -> Result<(), Fail> {
    for (factors, limit, at, relation) in SLOPE_CELLS {
        let shape = Shape::Slope(slope(factors, limit));
        assert_eq!(rt; shape.relation(cell(at)?), relation);
        assert_eq!(rt; possible(shape.bound()), Some(GRID));
    }
    Ok(())
}

#[test]
fn slopes_turn_at_their_extremes(rt: HostRuntime) -> Result<(), Fail> {
    for (factors, at, least, greatest) in EXTREMES {
        assert_eq!(rt; relation_at(factors, i64::MAX, at)?, Relation::Inside);
        assert_eq!(rt; relation_at(factors, greatest, at)?, Relation::Inside);
        assert_eq!(rt; relation_at(factors, greatest - 1, at)?, Relation::Mixed);
        assert_eq!(rt; relation_at(factors, least, at)?, Relation::Mixed);
        assert_eq!(rt; relation_at(factors, least - 1, at)?, Relation::Outside);
        assert_eq!(rt; relation_at(factors, i64::MIN, at)?, Relation::Outside);
    }
    Ok(())
}

// How a slope with the limit lies to a cell.
fn relation_at(factors: [i16; 3], limit: i64, ends: Ends) -> Result<Relation, Refusal> {
    Ok(slope(factors, limit).relation(cell(ends)?))
}

// A block that goes past the grid, an empty block and a slope.
const SHAPES: [Shape; 3] = [
    Shape::Block(Block {
        low: BarePlace {
            needle: 4,
            course: 3,
            track: 0,
        },
        high: BarePlace {
            needle: 65535,
            course: 3,
            track: 0,
        },
    }),
    Shape::Block(Block {
        low: BarePlace {
            needle: 5,
            course: 3,
            track: 0,
        },
        high: BarePlace {
            needle: 4,
            course: 3,
            track: 0,
        },
    }),
    Shape::Slope(Slope {
        needle: 1,
        course: -1,
        track: 0,
        limit: 0,
    }),
];

// A leaf number and its bound; whether the leaf holds needle 4 in course 3 on track 0; and how it lies to the cell of
// needles 3 to 4 there.
type Leaf = (u16, Option<Ends>, bool, Relation);

const LEAVES: [Leaf; 6] = [
    (0, Some([4, 3, 0, 4095, 3, 0]), true, Relation::Mixed),
    (1, None, false, Relation::Outside),
    (2, Some(GRID), false, Relation::Mixed),
    (3, None, false, Relation::Outside),
    (4, None, false, Relation::Outside),
    (65535, None, false, Relation::Outside),
];

#[test]
fn lists_have_a_leaf_for_each_shape(rt: HostRuntime) -> Result<(), Fail> {
    assert_eq!(rt; ShapeList::new(&SHAPES).leaves(), 3);
    for leaf in LEAVES {
        check_leaf(&rt, &SHAPES, leaf)?;
    }
    Ok(())
}

#[test]
fn empty_lists_have_no_leaf(rt: HostRuntime) -> Result<(), Fail> {
    assert_eq!(rt; ShapeList::new(&[]).leaves(), 0);
    for number in [0, 1, 65535] {
        check_leaf(&rt, &[], (number, None, false, Relation::Outside))?;
    }
    Ok(())
}

fn check_leaf(rt: &impl Abort, shapes: &[Shape], leaf: Leaf) -> Result<(), Fail> {
    let (number, bound, holds, relation) = leaf;
    let list = ShapeList::new(shapes);
    assert_eq!(rt; possible(bound_in(&list, number)), bound);
    assert_eq!(rt; list.holds(number, place([4, 3, 0])?), holds);
    assert_eq!(rt; list.relation(number, cell([3, 3, 0, 4, 3, 0])?), relation);
    Ok(())
}

// The bound as it is asked of any bank.
fn bound_in<B: Bank>(bank: &B, leaf: u16) -> Option<Cell> {
    bank.bound(leaf)
}

fn block(ends: Ends) -> Block {
    let (low, high) = corners(ends);
    Block { low, high }
}

fn slope(factors: [i16; 3], limit: i64) -> Slope {
    let [needle, course, track] = factors;
    Slope {
        needle,
        course,
        track,
        limit,
    }
}
