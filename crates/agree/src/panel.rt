// The panel and the carriage program that the program compares.
ghost use Rattle.std.specs.Prelude.{◌≡◌, map, IfOk};
ghost use Rattle.std.specs.List.{flat_map};
ghost use Rattle.agree.specs.Panel.{yarn_of, stitch_of, pass_of};

use grid::BarePlace;
use passes::Pass;
use std::alloc::{AllocError, Global};

pub const LEFT: u16 = 120;

pub const FIRST: u16 = 40;

pub const WIDTH: u16 = 24;

// The workspace: the needles and courses of the panel, on the tracks of its three yarns.
pub const LOW: BarePlace = BarePlace {
    needle: 120,
    course: 40,
    track: 0,
};

pub const HIGH: BarePlace = BarePlace {
    needle: 143,
    course: 55,
    track: 2,
};

// The chart, a line for each course and a mark for each needle: a diamond of yarn 1 on a ground of yarn 0 between
// borders of yarn 2, with an opening of four needles in the last course.
pub const PICTURE: &str = "222000000000000000000222
222000000001100000000222
222000000011110000000222
222000000111111000000222
222000001111111100000222
222000011111111110000222
222000111111111111000222
222001111111111111100222
222001111111111111100222
222000111111111111000222
222000011111111110000222
222000001111111100000222
222000000111111000000222
222000000011110000000222
222000000001100000000222
2220000000....0000000222
";

// The carriage program, in rows of numbers as such programs are written: course, track, first and last needle. The pass of
// yarn 1 in course 47 is wrong: it should run from needle 125 to 138.
pub const RUNS: [[u16; 4]; 77] = [
    [40, 2, 120, 122],
    [40, 0, 123, 140],
    [40, 2, 141, 143],
    [41, 2, 120, 122],
    [41, 0, 123, 130],
    [41, 1, 131, 132],
    [41, 0, 133, 140],
    [41, 2, 141, 143],
    [42, 2, 120, 122],
    [42, 0, 123, 129],
    [42, 1, 130, 133],
    [42, 0, 134, 140],
    [42, 2, 141, 143],
    [43, 2, 120, 122],
    [43, 0, 123, 128],
    [43, 1, 129, 134],
    [43, 0, 135, 140],
    [43, 2, 141, 143],
    [44, 2, 120, 122],
    [44, 0, 123, 127],
    [44, 1, 128, 135],
    [44, 0, 136, 140],
    [44, 2, 141, 143],
    [45, 2, 120, 122],
    [45, 0, 123, 126],
    [45, 1, 127, 136],
    [45, 0, 137, 140],
    [45, 2, 141, 143],
    [46, 2, 120, 122],
    [46, 0, 123, 125],
    [46, 1, 126, 137],
    [46, 0, 138, 140],
    [46, 2, 141, 143],
    [47, 2, 120, 122],
    [47, 0, 123, 124],
    [47, 1, 124, 136],
    [47, 0, 139, 140],
    [47, 2, 141, 143],
    [48, 2, 120, 122],
    [48, 0, 123, 124],
    [48, 1, 125, 138],
    [48, 0, 139, 140],
    [48, 2, 141, 143],
    [49, 2, 120, 122],
    [49, 0, 123, 125],
    [49, 1, 126, 137],
    [49, 0, 138, 140],
    [49, 2, 141, 143],
    [50, 2, 120, 122],
    [50, 0, 123, 126],
    [50, 1, 127, 136],
    [50, 0, 137, 140],
    [50, 2, 141, 143],
    [51, 2, 120, 122],
    [51, 0, 123, 127],
    [51, 1, 128, 135],
    [51, 0, 136, 140],
    [51, 2, 141, 143],
    [52, 2, 120, 122],
    [52, 0, 123, 128],
    [52, 1, 129, 134],
    [52, 0, 135, 140],
    [52, 2, 141, 143],
    [53, 2, 120, 122],
    [53, 0, 123, 129],
    [53, 1, 130, 133],
    [53, 0, 134, 140],
    [53, 2, 141, 143],
    [54, 2, 120, 122],
    [54, 0, 123, 130],
    [54, 1, 131, 132],
    [54, 0, 133, 140],
    [54, 2, 141, 143],
    [55, 2, 120, 122],
    [55, 0, 123, 129],
    [55, 0, 134, 140],
    [55, 2, 141, 143],
];

// The yarn that a mark names, or 9 for no stitch. It is a byte of the chart's own format, and so a number.
fn yarn(mark: u8) -> u8
    ensures { result ≡ yarn_of mark }
{
    match mark {
        b'0'..=b'7' => mark - b'0',
        _ => 9,
    }
}

// The chart's bytes, line by line.
pub fn stitches(heap: Global, picture: &str) -> Result<Vec<u8>, AllocError>
    ensures { IfOk result (λ v. v.items ≡ flat_map stitch_of picture.now) }
{
    picture
        .bytes()
        .filter(|mark| *mark != b'\n')
        .map(yarn)
        .collect(heap)
}

// The pass that a run stands for. The order of the four numbers is that of the rows above, and no property of a pass.
fn pass(run: &[u16; 4]) -> Pass
    ensures { result ≡ pass_of run.now }
{
    let [course, track, from, to] = *run;
    Pass {
        course,
        track,
        from,
        to,
    }
}

// The passes that the runs stand for, in order.
pub fn program(heap: Global, runs: &[[u16; 4]]) -> Result<Vec<Pass>, AllocError>
    ensures { IfOk result (λ v. v.items ≡ map pass_of runs.now) }
{
    runs.iter().map(pass).collect(heap)
}
