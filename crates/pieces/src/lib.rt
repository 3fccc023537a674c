// Measured pieces as a pattern of one leaf: garment parts given by their edges in millimetres.
#![tactic(auto)]

mod edge;

ghost use Rattle.std.specs.Prelude.{◌≡◌, true};
ghost use Rattle.pieces.specs.Pieces.{measure_of, from_low, to_high, Numbers, piece_set, leaves_of};

pub use edge::Edge;
use grid::Place;
use pattern::Pattern;

// A piece on one track. A needle stands at needle times pitch from the left and a course at course times height from the
// bottom, in millimetres. The piece has the places between its four edges.
#[derive(Clone, Copy, PartialEq, Debug)]
pub struct Piece {
    pub track: u16,
    pub pitch: f64,
    pub height: f64,
    pub left: Edge,
    pub right: Edge,
    pub bottom: Edge,
    pub top: Edge,
}

// Where a needle or a course stands: the product, rounded once.
fn measure(number: u16, step: f64) -> f64
    ensures { result ≡ measure_of number step }
{
    number as f64 * step
}

// Two comparisons side by side, turned round: a function of both would have to say which of its numbers stands first.
impl Edge {
    // Whether a measure passes the edge as a left or a bottom one. A comparison with what is not a number fails.
    #[tactic(auto, using(crate::proofs::NumberLaws::low_numbers))]
    pub fn is_passed_from_below(&self, measure: f64) -> bool
        ensures is { result ≡ from_low self.now measure }
        ensures numbers { result ≡ true → Numbers self.now measure }
    {
        match *self {
            Edge::Open(at) => measure > at,
            Edge::Closed(at) => measure >= at,
            Edge::Free => true,
        }
    }

    // Whether a measure passes the edge as a right or a top one. A comparison with what is not a number fails.
    #[tactic(auto, using(crate::proofs::NumberLaws::high_numbers))]
    pub fn is_passed_from_above(&self, measure: f64) -> bool
        ensures is { result ≡ to_high self.now measure }
        ensures numbers { result ≡ true → Numbers self.now measure }
    {
        match *self {
            Edge::Open(at) => measure < at,
            Edge::Closed(at) => measure <= at,
            Edge::Free => true,
        }
    }
}

impl Piece {
    // Whether the piece has a place.
    pub fn covers(&self, place: Place) -> bool
        ensures { result ≡ piece_set self.now place }
    {
        let across = measure(place.needle(), self.pitch);
        let along = measure(place.course(), self.height);
        place.track() == self.track
            && self.left.is_passed_from_below(across)
            && self.right.is_passed_from_above(across)
            && self.bottom.is_passed_from_below(along)
            && self.top.is_passed_from_above(along)
    }
}

// A piece tells no bound and no relation, by the rules of the project, and so is no area: it says itself that it is one leaf.
impl Pattern for Piece {
    ghost sets = { leaves_of };

    fn leaves(&self) -> u16 {
        1
    }

    fn holds(&self, leaf: u16, place: Place) -> bool {
        leaf == 0 && self.covers(place)
    }
}
