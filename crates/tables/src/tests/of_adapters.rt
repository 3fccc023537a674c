// The edges of the rules of lifted patterns and of pairs, as tables. The expected values are worked out by hand from the
// rules.
use super::{Ends, GRID, cell, place, possible};
use adapters::{Lifted, Pair};
use grid::BarePlace;
use lists::{Chart, PassList, ShapeList};
use passes::Pass;
use pattern::{Bank, Pattern, Relation};
use pieces::{Edge, Piece};
use shapes::{Block, Shape};
use std::process::Abort;
use std::test::Fail;

// Needles from 4 on, on track 1: four needles of 2.5 millimetres reach just to the closed edge.
const PIECE: Piece = Piece {
    track: 1,
    pitch: 2.5,
    height: 1.5,
    left: Edge::Closed(10.0),
    right: Edge::Free,
    bottom: Edge::Free,
    top: Edge::Free,
};

// A leaf and a cell; the relation of the lifted piece.
const LIFTED: [(u16, Ends, Relation); 8] = [
    (0, [4, 9, 1, 4, 9, 1], Relation::Inside),
    (0, [3, 9, 1, 3, 9, 1], Relation::Outside),
    (0, [4, 9, 0, 4, 9, 0], Relation::Outside),
    (0, [4, 9, 1, 5, 9, 1], Relation::Mixed),
    (0, [0, 9, 1, 1, 9, 1], Relation::Mixed),
    (0, GRID, Relation::Mixed),
    (1, [4, 9, 1, 4, 9, 1], Relation::Outside),
    (65535, GRID, Relation::Outside),
];

#[test]
fn lifted_pieces_know_single_places(rt: HostRuntime) -> Result<(), Fail> {
    let bank = Lifted { pattern: PIECE };
    assert_eq!(rt; bank.leaves(), 1);
    assert_eq!(rt; possible(bank.bound(0)), Some(GRID));
    assert_eq!(rt; possible(bank.bound(1)), None);
    for (leaf, at, relation) in LIFTED {
        let cell = cell(at)?;
        assert_eq!(rt; bank.relation(leaf, cell), relation);
        let held = leaf == 0 && PIECE.covers(cell.low());
        assert_eq!(rt; bank.holds(leaf, cell.low()), held);
    }
    Ok(())
}

// Two blocks, needles 0 to 3 and course 7; one pass, needles 5 to 6 of course 7 on track 2; and a chart with one stitch,
// needle 9 of course 7 on track 1.
const SHAPES: [Shape; 2] = [
    Shape::Block(Block {
        low: BarePlace {
            needle: 0,
            course: 0,
            track: 0,
        },
        high: BarePlace {
            needle: 3,
            course: 65535,
            track: 65535,
        },
    }),
    Shape::Block(Block {
        low: BarePlace {
            needle: 0,
            course: 7,
            track: 0,
        },
        high: BarePlace {
            needle: 65535,
            course: 7,
            track: 7,
        },
    }),
];

const PASSES: [Pass; 1] = [Pass {
    course: 7,
    track: 2,
    from: 5,
    to: 6,
}];

const BYTES: [u8; 1] = [1];

// A leaf of the shapes, the passes and the chart side by side; its bound; and the relation of needles 3 to 5 of course 7
// on track 2.
const LEAVES: [(u16, Option<Ends>, Relation); 6] = [
    (0, Some([0, 0, 0, 3, 65535, 7]), Relation::Mixed),
    (1, Some([0, 7, 0, 4095, 7, 7]), Relation::Inside),
    (2, Some([5, 7, 2, 6, 7, 2]), Relation::Mixed),
    (3, Some([9, 7, 0, 9, 7, 7]), Relation::Outside),
    (4, None, Relation::Outside),
    (65535, None, Relation::Outside),
];

// A place and which of the four leaves hold it.
const HELD: [([u16; 3], [bool; 4]); 6] = [
    ([3, 7, 2], [true, true, false, false]),
    ([5, 7, 2], [false, true, true, false]),
    ([9, 7, 1], [false, true, false, true]),
    ([9, 7, 2], [false, true, false, false]),
    ([0, 8, 0], [true, false, false, false]),
    ([4, 8, 0], [false, false, false, false]),
];

// The four leaves, put together to the right.
fn to_right() -> Pair<ShapeList<'static>, Pair<PassList<'static>, Chart<'static>>> {
    Pair {
        first: ShapeList::new(&SHAPES),
        second: Pair {
            first: PassList::new(&PASSES),
            second: Chart::new(9, 7, 1, &BYTES),
        },
    }
}

// The four leaves, put together to the left, after a list that has none.
fn to_left() -> Pair<
    Pair<Pair<ShapeList<'static>, ShapeList<'static>>, PassList<'static>>,
    Chart<'static>,
> {
    Pair {
        first: Pair {
            first: Pair {
                first: ShapeList::new(&[]),
                second: ShapeList::new(&SHAPES),
            },
            second: PassList::new(&PASSES),
        },
        second: Chart::new(9, 7, 1, &BYTES),
    }
}

// Checks the bounds and the relations of the four leaves.
fn check_leaves<B: Bank>(rt: &impl Abort, bank: &B) -> Result<(), Fail> {
    assert_eq!(rt; bank.leaves(), 4);
    let at = cell([3, 7, 2, 5, 7, 2])?;
    for (leaf, bound, relation) in LEAVES {
        assert_eq!(rt; possible(bank.bound(leaf)), bound);
        assert_eq!(rt; bank.relation(leaf, at), relation);
    }
    Ok(())
}

// Checks which of the four leaves hold a place.
fn check_places<P: Pattern>(rt: &impl Abort, pattern: &P) -> Result<(), Fail> {
    for (numbers, holds) in HELD {
        let at = place(numbers)?;
        let [first, second, third, fourth] = holds;
        assert_eq!(rt; pattern.holds(0, at), first);
        assert_eq!(rt; pattern.holds(1, at), second);
        assert_eq!(rt; pattern.holds(2, at), third);
        assert_eq!(rt; pattern.holds(3, at), fourth);
        assert_eq!(rt; pattern.holds(4, at), false);
        assert_eq!(rt; pattern.holds(65535, at), false);
    }
    Ok(())
}

#[test]
fn leaves_stand_side_by_side(rt: HostRuntime) -> Result<(), Fail> {
    check_leaves(&rt, &to_right())?;
    check_leaves(&rt, &to_left())?;
    check_places(&rt, &to_right())?;
    check_places(&rt, &to_left())
}

// How many blocks come before the pass; the leaves that count; and the bound and the relation of leaf 65534 to needle 5 of
// course 7 on track 2, which the pass has and the block has not.
const COUNTS: [(usize, u16, Option<Ends>, Relation); 4] = [
    (65533, 65534, None, Relation::Outside),
    (65534, 65535, Some([5, 7, 2, 6, 7, 2]), Relation::Inside),
    (
        65535,
        65535,
        Some([0, 0, 0, 3, 65535, 7]),
        Relation::Outside,
    ),
    (
        65536,
        65535,
        Some([0, 0, 0, 3, 65535, 7]),
        Relation::Outside,
    ),
];

#[test]
fn leaves_after_the_last_do_not_count(rt: HostRuntime) -> Result<(), Fail> {
    let blocks = vec![in rt.alloc(); SHAPES[0]; 65536]?;
    let passes = PassList::new(&PASSES);
    let at = cell([5, 7, 2, 5, 7, 2])?;
    for (count, leaves, bound, relation) in COUNTS {
        assert!(rt; count <= blocks.len());
        let first = ShapeList::new(&blocks.as_slice()[0..count]);
        let pair = Pair {
            first,
            second: passes,
        };
        assert_eq!(rt; pair.leaves(), leaves);
        assert_eq!(rt; possible(pair.bound(65534)), bound);
        assert_eq!(rt; pair.relation(65534, at), relation);
        assert_eq!(rt; pair.holds(65534, at.low()), relation == Relation::Inside);
        assert_eq!(rt; possible(pair.bound(65535)), None);
        assert_eq!(rt; pair.relation(65535, at), Relation::Outside);
        assert_eq!(rt; pair.holds(65535, at.low()), false);
        assert_eq!(rt; first.leaves() == 65535, count >= 65535);
        assert_eq!(rt; possible(first.bound(65535)), None);
    }
    Ok(())
}
