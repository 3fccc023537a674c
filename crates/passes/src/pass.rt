// One pass of the carriage: the needles it knits in a course, on a track. With `from` above `to` it knits none.
#[derive(Clone, Copy, PartialEq, Eq, Debug)]
pub struct Pass {
    pub course: u16,
    pub track: u16,
    pub from: u16,
    pub to: u16,
}
