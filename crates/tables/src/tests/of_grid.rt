// The edges of every rule of the grid, as tables. A cell is written as its six ends: low needle, course and track, then
// high needle, course and track. The expected values are worked out by hand from the rules.
use super::{Ends, cell, corners, ends, place, possible};
use grid::{Axis, Cell, Coordinates};
use std::test::Fail;

// Numbers and the number of the refusal they get, if any.
const PLACES: [([u16; 3], Option<u16>); 8] = [
    ([0, 0, 0], None),
    ([4095, 65535, 7], None),
    ([4096, 0, 0], Some(3)),
    ([65535, 0, 0], Some(3)),
    ([0, 65535, 0], None),
    ([0, 0, 8], Some(3)),
    ([0, 0, 65535], Some(3)),
    ([4096, 65535, 8], Some(3)),
];

#[test]
fn places_end_with_the_grid(rt: HostRuntime) {
    for (numbers, refusal) in PLACES {
        match place(numbers) {
            Ok(place) => {
                assert_eq!(rt; refusal, None);
                assert_eq!(rt; [place.needle(), place.course(), place.track()], numbers);
                assert_eq!(rt;
                    [
                        place.on(Axis::Needle),
                        place.on(Axis::Course),
                        place.on(Axis::Track),
                    ],
                    numbers
                );
            }
            Err(e) => assert_eq!(rt; Some(e.number()), refusal),
        }
    }
}

// Ends and the number of the refusal they get, if any. Off the grid goes before upside down.
const WORKSPACES: [(Ends, Option<u16>); 12] = [
    ([0, 0, 0, 4095, 65535, 7], None),
    ([9, 9, 3, 9, 9, 3], None),
    ([0, 0, 0, 4096, 0, 0], Some(3)),
    ([0, 0, 0, 0, 0, 8], Some(3)),
    ([4096, 0, 0, 4096, 0, 0], Some(3)),
    ([5, 0, 0, 4, 0, 0], Some(4)),
    ([0, 1, 0, 0, 0, 0], Some(4)),
    ([0, 0, 7, 0, 0, 6], Some(4)),
    ([4096, 0, 0, 0, 0, 0], Some(3)),
    ([1, 0, 0, 0, 0, 8], Some(3)),
    ([0, 9, 9, 0, 0, 0], Some(3)),
    ([1, 1, 1, 0, 0, 0], Some(4)),
];

#[test]
fn workspaces_are_taken_or_refused(rt: HostRuntime) {
    for (given, refusal) in WORKSPACES {
        match cell(given) {
            Ok(c) => {
                assert_eq!(rt; refusal, None);
                assert_eq!(rt; ends(c), given);
            }
            Err(e) => assert_eq!(rt; Some(e.number()), refusal),
        }
    }
}

// The ends of a box and the box cut by the grid; none if nothing of it is there.
const BOXES: [(Ends, Option<Ends>); 10] = [
    ([0, 0, 0, 4095, 65535, 7], Some([0, 0, 0, 4095, 65535, 7])),
    (
        [0, 0, 0, 65535, 65535, 65535],
        Some([0, 0, 0, 4095, 65535, 7]),
    ),
    (
        [4095, 65535, 7, 65535, 65535, 8],
        Some([4095, 65535, 7, 4095, 65535, 7]),
    ),
    ([3, 4, 5, 3, 4, 5], Some([3, 4, 5, 3, 4, 5])),
    ([4096, 0, 0, 65535, 0, 0], None),
    ([0, 0, 8, 0, 0, 9], None),
    ([5, 0, 0, 4, 9, 7], None),
    ([0, 1, 0, 9, 0, 7], None),
    ([0, 0, 3, 9, 9, 2], None),
    ([4097, 0, 0, 4096, 9, 7], None),
];

#[test]
fn boxes_are_cut_by_the_grid(rt: HostRuntime) {
    for (given, expected) in BOXES {
        let (low, high) = corners(given);
        assert_eq!(rt; possible(Cell::from_box(low, high)), expected);
    }
    assert_eq!(rt; ends(Cell::grid()), [0, 0, 0, 4095, 65535, 7]);
}

// Two cells and their cut, the same in either order.
const CUTS: [(Ends, Ends, Option<Ends>); 8] = [
    (
        [0, 0, 0, 5, 5, 5],
        [5, 5, 5, 9, 9, 7],
        Some([5, 5, 5, 5, 5, 5]),
    ),
    ([0, 0, 0, 5, 5, 5], [6, 0, 0, 9, 9, 7], None),
    ([0, 0, 0, 5, 5, 5], [0, 6, 0, 9, 9, 7], None),
    ([0, 0, 0, 5, 5, 5], [0, 0, 6, 9, 9, 7], None),
    (
        [0, 0, 0, 9, 9, 7],
        [3, 4, 5, 3, 4, 5],
        Some([3, 4, 5, 3, 4, 5]),
    ),
    (
        [0, 0, 2, 9, 3, 2],
        [4, 0, 0, 4, 65535, 7],
        Some([4, 0, 2, 4, 3, 2]),
    ),
    (
        [0, 0, 0, 4095, 65535, 7],
        [0, 0, 0, 4095, 65535, 7],
        Some([0, 0, 0, 4095, 65535, 7]),
    ),
    (
        [4095, 65535, 7, 4095, 65535, 7],
        [0, 0, 0, 4095, 65534, 7],
        None,
    ),
];

#[test]
fn cuts_touch_or_miss(rt: HostRuntime) -> Result<(), Fail> {
    for (one, other, cut) in CUTS {
        let a = cell(one)?;
        let b = cell(other)?;
        assert_eq!(rt; possible(a.cut(b)), cut);
        assert_eq!(rt; possible(b.cut(a)), cut);
        assert_eq!(rt; a.meets(b), cut.is_some());
        assert_eq!(rt; b.meets(a), cut.is_some());
    }
    Ok(())
}

// Two cells and their hull.
const HULLS: [(Ends, Ends, Ends); 3] = [
    (
        [0, 0, 0, 0, 0, 0],
        [4095, 65535, 7, 4095, 65535, 7],
        [0, 0, 0, 4095, 65535, 7],
    ),
    ([2, 5, 1, 3, 5, 4], [1, 7, 2, 2, 8, 3], [1, 5, 1, 3, 8, 4]),
    ([0, 0, 0, 9, 9, 7], [3, 4, 5, 3, 4, 5], [0, 0, 0, 9, 9, 7]),
];

#[test]
fn hulls_hold_both(rt: HostRuntime) -> Result<(), Fail> {
    assert_eq!(rt; possible(Cell::hull(None, None)), None);
    for (one, other, hull) in HULLS {
        let a = cell(one)?;
        let b = cell(other)?;
        assert_eq!(rt; possible(Cell::hull(Some(a), Some(b))), Some(hull));
        assert_eq!(rt; possible(Cell::hull(Some(b), Some(a))), Some(hull));
        assert_eq!(rt; possible(Cell::hull(Some(a), None)), Some(one));
        assert_eq!(rt; possible(Cell::hull(None, Some(a))), Some(one));
    }
    Ok(())
}

// A cell and its halves, lower and upper: the longest side, equal sides, odd sides, one place.
const HALVES: [(Ends, Option<(Ends, Ends)>); 10] = [
    (
        [0, 0, 0, 4, 2, 0],
        Some(([0, 0, 0, 1, 2, 0], [2, 0, 0, 4, 2, 0])),
    ),
    (
        [0, 0, 0, 3, 3, 3],
        Some(([0, 0, 0, 1, 3, 3], [2, 0, 0, 3, 3, 3])),
    ),
    (
        [9, 0, 0, 9, 7, 7],
        Some(([9, 0, 0, 9, 3, 7], [9, 4, 0, 9, 7, 7])),
    ),
    (
        [5, 0, 0, 6, 2, 1],
        Some(([5, 0, 0, 6, 0, 1], [5, 1, 0, 6, 2, 1])),
    ),
    (
        [5, 8, 1, 6, 9, 3],
        Some(([5, 8, 1, 6, 9, 1], [5, 8, 2, 6, 9, 3])),
    ),
    (
        [4094, 65535, 7, 4095, 65535, 7],
        Some((
            [4094, 65535, 7, 4094, 65535, 7],
            [4095, 65535, 7, 4095, 65535, 7],
        )),
    ),
    (
        [0, 0, 0, 0, 0, 1],
        Some(([0, 0, 0, 0, 0, 0], [0, 0, 1, 0, 0, 1])),
    ),
    (
        [0, 0, 0, 4095, 65535, 7],
        Some(([0, 0, 0, 4095, 32767, 7], [0, 32768, 0, 4095, 65535, 7])),
    ),
    ([0, 0, 0, 0, 0, 0], None),
    ([4095, 65535, 7, 4095, 65535, 7], None),
];

#[test]
fn halves_come_in_pairs(rt: HostRuntime) -> Result<(), Fail> {
    for (whole, halves) in HALVES {
        let c = cell(whole)?;
        assert_eq!(rt; c.is_one_place(), halves.is_none());
        let told = c.halve().map(|(lower, upper)| (ends(lower), ends(upper)));
        assert_eq!(rt; told, halves);
    }
    Ok(())
}

// A cell, its places and how often it can be halved.
const SIZES: [(Ends, u64, u32); 7] = [
    ([0, 0, 0, 4095, 65535, 7], 2147483648, 31),
    ([7, 7, 7, 7, 7, 7], 1, 0),
    ([0, 0, 0, 4, 2, 0], 15, 5),
    ([0, 0, 0, 1, 0, 0], 2, 1),
    ([0, 0, 0, 2, 3, 4], 60, 7),
    ([0, 0, 0, 0, 65534, 0], 65535, 16),
    ([0, 0, 0, 0, 32767, 7], 262144, 18),
];

#[test]
fn sizes_are_counted(rt: HostRuntime) -> Result<(), Fail> {
    for (given, places, halvings) in SIZES {
        let c = cell(given)?;
        assert_eq!(rt; c.places(), places);
        assert_eq!(rt; c.halvings(), halvings);
    }
    Ok(())
}

// A cell, another, and whether the first lies in the second.
const INSIDE: [(Ends, Ends, bool); 8] = [
    ([1, 1, 1, 2, 2, 2], [1, 1, 1, 2, 2, 2], true),
    ([1, 1, 1, 2, 2, 2], [0, 0, 0, 3, 3, 3], true),
    ([1, 1, 1, 2, 2, 2], [2, 1, 1, 2, 2, 2], false),
    ([1, 1, 1, 2, 2, 2], [1, 2, 1, 2, 2, 2], false),
    ([1, 1, 1, 2, 2, 2], [1, 1, 1, 2, 2, 1], false),
    ([1, 1, 1, 2, 2, 2], [1, 1, 1, 1, 2, 2], false),
    ([0, 0, 0, 3, 3, 3], [1, 1, 1, 2, 2, 2], false),
    ([5, 5, 5, 5, 5, 5], [6, 6, 6, 6, 6, 6], false),
];

#[test]
fn cells_lie_in_cells(rt: HostRuntime) -> Result<(), Fail> {
    for (inner, outer, lies) in INSIDE {
        let a = cell(inner)?;
        let b = cell(outer)?;
        assert_eq!(rt; a.lies_in(b), lies);
        assert_eq!(rt; b.holds(a.low()) && b.holds(a.high()), lies);
    }
    Ok(())
}
