// The edges of every rule of measured pieces, as tables. The expected values are worked out by hand from the rules.
use super::place;
use pattern::Pattern;
use pieces::Edge::{Closed, Free, Open};
use pieces::{Edge, Piece};
use std::test::Fail;

const NOT_A_NUMBER: f64 = f64::NAN;

const ENDLESS: f64 = f64::INFINITY;

// Pitch, left and right edge; a needle; whether the piece has it. Each needle stands at needle times pitch.
const ACROSS: [(f64, Edge, Edge, u16, bool); 37] = [
    // needle 3 stands at 7.5, needle 4 at 10.0, needle 5 at 12.5
    (2.5, Closed(10.0), Free, 3, false),
    (2.5, Closed(10.0), Free, 4, true),
    (2.5, Closed(10.0), Free, 5, true),
    (2.5, Open(10.0), Free, 4, false),
    (2.5, Open(10.0), Free, 5, true),
    (2.5, Free, Closed(10.0), 4, true),
    (2.5, Free, Closed(10.0), 5, false),
    (2.5, Free, Open(10.0), 3, true),
    (2.5, Free, Open(10.0), 4, false),
    (2.5, Closed(10.0), Closed(10.0), 4, true),
    (2.5, Closed(10.0), Open(10.0), 4, false),
    (2.5, Closed(12.5), Closed(7.5), 4, false),
    // the double nearest to 0.1 is above it, and ten times that is rounded to 1
    (0.1, Open(1.0), Free, 10, false),
    (0.1, Closed(1.0), Closed(1.0), 10, true),
    // to the left
    (-2.5, Closed(-10.0), Free, 4, true),
    (-2.5, Closed(-10.0), Free, 5, false),
    (-2.5, Free, Open(-10.0), 4, false),
    (-2.5, Free, Open(-10.0), 5, true),
    // all needles at 0, and minus zero is zero
    (0.0, Closed(0.0), Closed(0.0), 4095, true),
    (0.0, Open(0.0), Free, 4095, false),
    (-0.0, Closed(0.0), Free, 5, true),
    (-0.0, Free, Open(0.0), 5, false),
    (2.5, Closed(-0.0), Free, 0, true),
    (2.5, Open(-0.0), Free, 0, false),
    // endless measures; needle 0 times an endless pitch is not a number
    (ENDLESS, Closed(ENDLESS), Free, 1, true),
    (ENDLESS, Open(ENDLESS), Free, 1, false),
    (ENDLESS, Closed(0.0), Free, 0, false),
    (ENDLESS, Free, Free, 0, true),
    (-ENDLESS, Free, Open(0.0), 1, true),
    (2.5, Free, Open(ENDLESS), 4095, true),
    (2.5, Open(-ENDLESS), Free, 0, true),
    // what is not a number passes no edge, but for a free one
    (NOT_A_NUMBER, Closed(0.0), Free, 4, false),
    (NOT_A_NUMBER, Free, Open(ENDLESS), 4, false),
    (NOT_A_NUMBER, Free, Free, 4, true),
    (2.5, Closed(NOT_A_NUMBER), Free, 4, false),
    (2.5, Free, Open(NOT_A_NUMBER), 4, false),
    (2.5, Open(NOT_A_NUMBER), Closed(NOT_A_NUMBER), 4, false),
];

// The same by courses: bottom and top edge, and the height of a row in the place of the pitch.
#[test]
fn edges_pass_needles_and_courses(rt: HostRuntime) -> Result<(), Fail> {
    for (step, low, high, number, has) in ACROSS {
        let across = Piece {
            track: 1,
            pitch: step,
            height: 3.0,
            left: low,
            right: high,
            bottom: Free,
            top: Free,
        };
        let along = Piece {
            track: 1,
            pitch: 3.0,
            height: step,
            left: Free,
            right: Free,
            bottom: low,
            top: high,
        };
        assert_eq!(rt; across.covers(place([number, 2, 1])?), has);
        assert_eq!(rt; across.covers(place([number, 2, 0])?), false);
        assert_eq!(rt; along.covers(place([2, number, 1])?), has);
        assert_eq!(rt; along.holds(0, place([2, number, 1])?), has);
        assert_eq!(rt; along.holds(1, place([2, number, 1])?), false);
    }
    Ok(())
}

// A leaf number and a place; whether the piece of needles 4 to 7 and courses 2 to 3 on track 7 holds it.
const LEAVES: [(u16, [u16; 3], bool); 12] = [
    (0, [4, 2, 7], true),
    (0, [7, 3, 7], true),
    (0, [3, 2, 7], false),
    (0, [8, 2, 7], false),
    (0, [4, 1, 7], false),
    (0, [4, 4, 7], false),
    (0, [4, 2, 6], false),
    (0, [4, 2, 0], false),
    (0, [4095, 65535, 7], false),
    (1, [4, 2, 7], false),
    (8, [4, 2, 7], false),
    (65535, [4, 2, 7], false),
];

#[test]
fn pieces_have_one_leaf(rt: HostRuntime) -> Result<(), Fail> {
    let piece = Piece {
        track: 7,
        pitch: 2.5,
        height: 1.5,
        left: Closed(10.0),
        right: Open(20.0),
        bottom: Open(1.5),
        top: Closed(4.5),
    };
    assert_eq!(rt; piece.leaves(), 1);
    for (leaf, at, has) in LEAVES {
        assert_eq!(rt; piece.holds(leaf, place(at)?), has);
    }
    let mut off = piece;
    off.track = 8;
    assert_eq!(rt; off.leaves(), 1);
    assert_eq!(rt; off.holds(0, place([4, 2, 0])?), false);
    Ok(())
}
