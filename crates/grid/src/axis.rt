// One of the three numbers of a place.
#[derive(Clone, Copy, PartialEq, Eq, Debug)]
pub enum Axis {
    Needle,
    Course,
    Track,
}

impl Axis {
    ghost use Rattle.std.specs.Prelude.{◌≡◌};
    ghost use Rattle.grid.specs.Axes.{top};

    // The last number on the axis.
    pub(crate) fn last(self) -> u16
        ensures { result ≡ top self }
    {
        match self {
            Axis::Needle => 4095,
            Axis::Course => 65535,
            Axis::Track => 7,
        }
    }
}
