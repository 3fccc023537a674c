// An edge of a measured piece, at a measure in millimetres.
// A type of its own and not the library's `Bound`, matched in each comparison: a rule of the project.
#[derive(Clone, Copy, PartialEq, Debug)]
pub enum Edge {
    // The edge itself is not part of the piece.
    Open(f64),
    // The edge itself is part of the piece.
    Closed(f64),
    // There is no edge: every measure passes.
    Free,
}
