// The edges of every rule of passes, as tables. The expected values are worked out by hand from the rules.
use super::{Ends, cell, place, possible};
use lists::PassList;
use passes::Pass;
use pattern::{Bank, Pattern, Relation};
use std::test::Fail;

// Course, track, from and to of a pass; needle, course and track of a place; whether the pass holds it.
const PASSES: [([u16; 4], [u16; 3], bool); 16] = [
    ([5, 1, 10, 12], [10, 5, 1], true),
    ([5, 1, 10, 12], [12, 5, 1], true),
    ([5, 1, 10, 12], [9, 5, 1], false),
    ([5, 1, 10, 12], [13, 5, 1], false),
    ([5, 1, 10, 12], [11, 4, 1], false),
    ([5, 1, 10, 12], [11, 6, 1], false),
    ([5, 1, 10, 12], [11, 5, 0], false),
    ([5, 1, 10, 12], [11, 5, 2], false),
    ([5, 1, 11, 11], [11, 5, 1], true),
    ([5, 1, 11, 11], [10, 5, 1], false),
    ([5, 1, 12, 11], [11, 5, 1], false),
    ([5, 1, 12, 11], [12, 5, 1], false),
    ([65535, 7, 0, 65535], [4095, 65535, 7], true),
    ([65535, 7, 4096, 65535], [4095, 65535, 7], false),
    ([0, 8, 0, 65535], [0, 0, 7], false),
    ([0, 0, 0, 0], [0, 0, 0], true),
];

#[test]
fn passes_hold_their_needles(rt: HostRuntime) -> Result<(), Fail> {
    for (numbers, at, holds) in PASSES {
        let list = [pass(numbers)];
        assert_eq!(rt; pass(numbers).holds(place(at)?), holds);
        assert_eq!(rt; PassList::new(&list).holds(0, place(at)?), holds);
    }
    Ok(())
}

const LIST: [Pass; 3] = [
    Pass {
        course: 2,
        track: 0,
        from: 8,
        to: 3,
    },
    Pass {
        course: 2,
        track: 0,
        from: 3,
        to: 5,
    },
    Pass {
        course: 2,
        track: 1,
        from: 5,
        to: 8,
    },
];

// A leaf number and a place; whether the list of three passes, the first of them empty, holds it.
const LEAVES: [(u16, [u16; 3], bool); 8] = [
    (0, [3, 2, 0], true),
    (0, [5, 2, 0], true),
    (0, [6, 2, 0], false),
    (0, [8, 2, 1], true),
    (0, [4, 2, 1], false),
    (0, [4, 3, 0], false),
    (1, [3, 2, 0], false),
    (65535, [3, 2, 0], false),
];

#[test]
fn lists_have_one_leaf(rt: HostRuntime) -> Result<(), Fail> {
    let list = PassList::new(&LIST);
    assert_eq!(rt; list.leaves(), 1);
    for (leaf, at, holds) in LEAVES {
        assert_eq!(rt; list.holds(leaf, place(at)?), holds);
    }
    let none = PassList::new(&[]);
    assert_eq!(rt; none.leaves(), 1);
    assert_eq!(rt; none.holds(0, place([0, 0, 0])?), false);
    Ok(())
}

// Three passes, by course, track, from and to, and the hull of what they knit; none if they knit nothing. A pass from
// needle 1 to needle 0 is empty.
const BOUNDS: [([[u16; 4]; 3], Option<Ends>); 9] = [
    ([[0, 0, 1, 0], [0, 0, 1, 0], [0, 0, 1, 0]], None),
    (
        [[5, 1, 10, 12], [0, 0, 1, 0], [0, 0, 1, 0]],
        Some([10, 5, 1, 12, 5, 1]),
    ),
    (
        [[0, 0, 1, 0], [5, 1, 10, 12], [2, 6, 20, 20]],
        Some([10, 2, 1, 20, 5, 6]),
    ),
    (
        [[5, 1, 10, 12], [5, 1, 11, 14], [5, 1, 9, 9]],
        Some([9, 5, 1, 14, 5, 1]),
    ),
    ([[5, 8, 10, 12], [0, 0, 1, 0], [0, 0, 1, 0]], None),
    (
        [[5, 8, 0, 4095], [5, 7, 10, 12], [0, 0, 1, 0]],
        Some([10, 5, 7, 12, 5, 7]),
    ),
    (
        [[5, 1, 4000, 65535], [0, 0, 1, 0], [0, 0, 1, 0]],
        Some([4000, 5, 1, 4095, 5, 1]),
    ),
    (
        [[5, 1, 4096, 65535], [0, 0, 0, 0], [5, 65535, 0, 0]],
        Some([0, 0, 0, 0, 0, 0]),
    ),
    (
        [[65535, 7, 4095, 4095], [0, 0, 1, 0], [0, 0, 0, 0]],
        Some([0, 0, 0, 4095, 65535, 7]),
    ),
];

#[test]
fn bounds_are_hulls(rt: HostRuntime) {
    for (runs, bound) in BOUNDS {
        let [first, second, third] = runs;
        let passes = [pass(first), pass(second), pass(third)];
        let list = PassList::new(&passes);
        assert_eq!(rt; possible(list.bound(0)), bound);
        assert_eq!(rt; possible(list.bound(1)), None);
        assert_eq!(rt; possible(list.bound(65535)), None);
    }
    assert_eq!(rt; possible(PassList::new(&[]).bound(0)), None);
}

// A cell and its relation to the passes of needles 3 to 5 and 6 to 8 in course 2 on track 0, and of all needles in course
// 3 on track 1.
const RELATIONS: [(Ends, Relation); 14] = [
    ([3, 2, 0, 5, 2, 0], Relation::Inside),
    ([6, 2, 0, 8, 2, 0], Relation::Inside),
    ([7, 2, 0, 8, 2, 0], Relation::Inside),
    ([4, 2, 0, 4, 2, 0], Relation::Inside),
    ([0, 3, 1, 4095, 3, 1], Relation::Inside),
    // two passes together have all of it, and none has it alone
    ([3, 2, 0, 8, 2, 0], Relation::Mixed),
    ([5, 2, 0, 6, 2, 0], Relation::Mixed),
    ([2, 2, 0, 3, 2, 0], Relation::Mixed),
    ([0, 3, 0, 4095, 3, 1], Relation::Mixed),
    ([0, 0, 0, 4095, 65535, 7], Relation::Mixed),
    ([9, 2, 0, 9, 2, 0], Relation::Outside),
    ([0, 0, 0, 2, 2, 0], Relation::Outside),
    ([9, 0, 0, 4095, 2, 7], Relation::Outside),
    ([3, 2, 1, 5, 2, 1], Relation::Outside),
];

#[test]
fn one_pass_settles_a_cell(rt: HostRuntime) -> Result<(), Fail> {
    let passes = [
        pass([2, 0, 3, 5]),
        pass([2, 0, 6, 8]),
        pass([3, 1, 0, 4095]),
    ];
    let list = PassList::new(&passes);
    for (at, relation) in RELATIONS {
        assert_eq!(rt; list.relation(0, cell(at)?), relation);
        assert_eq!(rt; list.relation(1, cell(at)?), Relation::Outside);
        assert_eq!(rt;
            PassList::new(&[]).relation(0, cell(at)?),
            Relation::Outside
        );
    }
    Ok(())
}

fn pass(numbers: [u16; 4]) -> Pass {
    let [course, track, from, to] = numbers;
    Pass {
        course,
        track,
        from,
        to,
    }
}
