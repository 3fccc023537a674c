// The edges of every rule of charts, as tables. The expected values are worked out by hand from the rules.
use super::{Ends, cell, place, possible};
use charts::Frame;
use grid::Cell;
use lists::Chart;
use pattern::{Bank, Pattern, Relation};
use std::test::Fail;

// A chart's frame: left needle, first course and width. A place and whether the chart of the bytes 1 1 2 9 holds it.
const FRAMES: [([u16; 3], [u16; 3], bool); 21] = [
    ([10, 0, 3], [12, 0, 2], true),
    ([10, 0, 3], [10, 1, 1], false),
    ([10, 0, 3], [11, 1, 1], false),
    ([10, 0, 3], [10, 0, 1], true),
    ([10, 0, 3], [11, 0, 1], true),
    ([10, 0, 3], [11, 0, 2], false),
    ([10, 0, 3], [9, 0, 1], false),
    ([10, 0, 3], [13, 0, 1], false),
    ([10, 0, 3], [10, 2, 1], false),
    ([10, 5, 3], [10, 4, 1], false),
    ([10, 5, 3], [10, 5, 1], true),
    ([10, 0, 2], [10, 1, 2], true),
    ([10, 0, 2], [12, 0, 2], false),
    ([10, 0, 0], [10, 0, 1], false),
    ([10, 0, 1], [10, 2, 2], true),
    ([4095, 65535, 1], [4095, 65535, 1], true),
    ([4095, 65534, 1], [4095, 65535, 1], true),
    ([4096, 0, 3], [4095, 0, 1], false),
    ([65535, 65535, 65535], [4095, 65535, 1], false),
    ([0, 0, 65535], [2, 0, 2], true),
    ([0, 0, 65535], [0, 1, 1], false),
];

#[test]
fn charts_hold_their_stitches(rt: HostRuntime) -> Result<(), Fail> {
    let bytes = [1u8, 1, 2, 9];
    for (frame, at, holds) in FRAMES {
        let [left, first, width] = frame;
        let chart = Chart::new(left, first, width, &bytes);
        let bare = Frame { left, first, width };
        assert_eq!(rt; bare.stitches(&bytes, place(at)?), holds);
        assert_eq!(rt; chart.holds(0, place(at)?), holds);
        assert_eq!(rt; chart.holds(1, place(at)?), false);
        assert_eq!(rt; chart.holds(65535, place(at)?), false);
        assert_eq!(rt; chart.leaves(), 1);
    }
    Ok(())
}

// A byte, and the track that has a stitch there, if any.
const BYTES: [(u8, Option<u16>); 6] = [
    (0, Some(0)),
    (3, Some(3)),
    (7, Some(7)),
    (8, None),
    (9, None),
    (255, None),
];

#[test]
fn bytes_name_tracks(rt: HostRuntime) -> Result<(), Fail> {
    for (byte, named) in BYTES {
        let bytes = [byte];
        let chart = Chart::new(0, 0, 1, &bytes);
        for track in 0..8u16 {
            assert_eq!(rt; chart.holds(0, place([0, 0, track])?), Some(track) == named);
        }
    }
    let none = Chart::new(0, 0, 1, &[]);
    assert_eq!(rt; none.leaves(), 1);
    assert_eq!(rt; none.holds(0, place([0, 0, 0])?), false);
    Ok(())
}

// A chart's frame, the number of its bytes, and its bound. The last needle is the left one plus the width minus 1, and
// the last course the first one plus the rows minus 1, each cut to the grid.
const BOUNDS: [([u16; 3], usize, Option<Ends>); 18] = [
    // Two full rows.
    ([10, 5, 3], 6, Some([10, 5, 0, 12, 6, 7])),
    // Two full rows and one of a single byte.
    ([10, 5, 3], 7, Some([10, 5, 0, 12, 7, 7])),
    // One row that is short, one of a single byte, and one that is full.
    ([10, 5, 3], 2, Some([10, 5, 0, 12, 5, 7])),
    ([10, 5, 3], 1, Some([10, 5, 0, 12, 5, 7])),
    ([10, 5, 3], 3, Some([10, 5, 0, 12, 5, 7])),
    // No width, no bytes, neither.
    ([10, 5, 0], 6, None),
    ([10, 5, 3], 0, None),
    ([10, 5, 0], 0, None),
    // Columns past the grid.
    ([4094, 0, 5], 6, Some([4094, 0, 0, 4095, 1, 7])),
    ([4095, 0, 1], 2, Some([4095, 0, 0, 4095, 1, 7])),
    ([4096, 0, 1], 2, None),
    ([65535, 0, 65535], 6, None),
    ([0, 0, 65535], 6, Some([0, 0, 0, 4095, 0, 7])),
    ([1, 0, 65535], 6, Some([1, 0, 0, 4095, 0, 7])),
    // Rows past the grid.
    ([0, 65535, 2], 6, Some([0, 65535, 0, 1, 65535, 7])),
    ([0, 65534, 3], 6, Some([0, 65534, 0, 2, 65535, 7])),
    ([0, 65533, 2], 7, Some([0, 65533, 0, 1, 65535, 7])),
    ([0, 65534, 1], 1, Some([0, 65534, 0, 0, 65534, 7])),
];

#[test]
fn bounds_are_the_frames_of_the_rows(rt: HostRuntime) {
    let bytes = [1u8; 7];
    for (frame, count, bound) in BOUNDS {
        let [left, first, width] = frame;
        let chart = Chart::new(left, first, width, up_to(&bytes, count));
        assert_eq!(rt; possible(chart.bound(0)), bound);
        assert_eq!(rt; possible(chart.bound(1)), None);
        assert_eq!(rt; possible(chart.bound(65535)), None);
    }
    // 65,537 rows are one more than the grid has courses.
    let rows = [1u8; 65537];
    let chart = Chart::new(7, 0, 1, &rows);
    assert_eq!(rt; possible(chart.bound(0)), Some([7, 0, 0, 7, 65535, 7]));
}

// A leaf and a cell, and how the chart with the frame 10 0 3 and the bytes 1 1 2 9 lies to it. Its bound has the needles
// 10 to 12 and the courses 0 and 1; in course 0 the tracks are 1, 1 and 2, and course 1 has no stitch.
const RELATIONS: [(u16, Ends, Relation); 24] = [
    // Leaves that are not there.
    (1, [10, 0, 1, 11, 0, 1], Relation::Outside),
    (65535, [10, 0, 1, 11, 0, 1], Relation::Outside),
    // Cells that miss the bound, the first two of many places.
    (0, [0, 0, 0, 9, 65535, 7], Relation::Outside),
    (0, [13, 0, 0, 4095, 65535, 7], Relation::Outside),
    (0, [10, 2, 0, 12, 2, 7], Relation::Outside),
    // Both bytes name the one track.
    (0, [10, 0, 1, 11, 0, 1], Relation::Inside),
    // A byte of another track at the end, and at the beginning.
    (0, [10, 0, 1, 12, 0, 1], Relation::Mixed),
    (0, [10, 0, 2, 12, 0, 2], Relation::Mixed),
    // A second track above, and one below.
    (0, [10, 0, 1, 10, 0, 2], Relation::Mixed),
    (0, [10, 0, 0, 10, 0, 1], Relation::Mixed),
    // Tracks above those that the bytes name, and below.
    (0, [10, 0, 2, 11, 0, 7], Relation::Outside),
    (0, [10, 0, 0, 12, 0, 0], Relation::Outside),
    // The byte 9 names no track.
    (0, [10, 1, 0, 10, 1, 7], Relation::Outside),
    // Past the last byte, within the bound.
    (0, [11, 1, 0, 12, 1, 7], Relation::Outside),
    // A missing byte below one that names the track.
    (0, [11, 0, 1, 11, 1, 1], Relation::Mixed),
    // A needle before the frame, and one past it.
    (0, [9, 0, 1, 10, 0, 1], Relation::Mixed),
    (0, [12, 0, 2, 13, 0, 2], Relation::Mixed),
    (0, [8, 0, 3, 14, 3, 7], Relation::Outside),
    // One place.
    (0, [12, 0, 2, 12, 0, 2], Relation::Inside),
    (0, [12, 0, 1, 12, 0, 1], Relation::Outside),
    (0, [12, 1, 2, 12, 1, 2], Relation::Outside),
    // Many places: the grid, and a cell that has no stitch. The last has 7 by 20 by 7 places, which is 980.
    (0, [0, 0, 0, 4095, 65535, 7], Relation::Mixed),
    (0, [10, 1, 0, 12, 65535, 7], Relation::Mixed),
    (0, [8, 1, 0, 14, 20, 6], Relation::Outside),
];

// The same for a chart of 32 rows of 41 bytes that are all 3. A cell of 32 by 32 has 1,024 places, one of 33 by 31 has
// 1,023, one of 41 by 25 has 1,025, and one of 16 by 8 has 1,024 on 8 tracks.
const SIZES: [(Ends, Relation); 7] = [
    ([0, 0, 3, 31, 31, 3], Relation::Inside),
    ([0, 0, 3, 32, 30, 3], Relation::Inside),
    ([0, 0, 3, 40, 24, 3], Relation::Mixed),
    ([9, 0, 4, 40, 31, 4], Relation::Outside),
    ([0, 0, 4, 40, 24, 4], Relation::Mixed),
    ([10, 0, 3, 41, 31, 3], Relation::Mixed),
    ([0, 0, 0, 15, 7, 7], Relation::Mixed),
];

#[test]
fn relations_are_exact_up_to_1024_places(rt: HostRuntime) -> Result<(), Fail> {
    let bytes = [1u8, 1, 2, 9];
    let chart = Chart::new(10, 0, 3, &bytes);
    for (leaf, given, relation) in RELATIONS {
        assert_eq!(rt; chart.relation(leaf, cell(given)?), relation);
    }
    let threes = [3u8; 1312];
    let wide = Chart::new(0, 0, 41, &threes);
    for (given, relation) in SIZES {
        assert_eq!(rt; wide.relation(0, cell(given)?), relation);
    }
    let none = Chart::new(0, 0, 41, &[]);
    assert_eq!(rt; none.relation(0, Cell::grid()), Relation::Outside);
    Ok(())
}

// The first bytes, as many as that.
fn up_to(bytes: &[u8], count: usize) -> &[u8] {
    &bytes[..count.min(bytes.len())]
}
