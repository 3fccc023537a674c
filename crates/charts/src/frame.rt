// Where a chart stands and how wide its rows are: the first byte stands at the left needle and the first course. The bytes
// come with each call, since a frame is copied and they are not; who holds both is a chart (crate `lists`).
#[derive(Clone, Copy, PartialEq, Eq, Debug)]
pub struct Frame {
    pub left: u16,
    pub first: u16,
    pub width: u16,
}
