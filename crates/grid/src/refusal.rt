ghost use Rattle.std.specs.Prelude.{◌≡◌};
ghost use Rattle.grid.specs.Refusals.{number_of};

use std::error::Error;
use std::fmt;

// Why bare numbers are refused, with the number by which that is told.
#[derive(Clone, Copy, PartialEq, Eq, Debug)]
pub enum Refusal {
    // A number lies off the grid.
    OffGrid = 3,
    // A low end lies above its high end.
    UpsideDown = 4,
}

impl Refusal {
    // The number by which the refusal is told.
    pub fn number(&self) -> u16
        ensures { result ≡ number_of self.now }
    {
        *self as u16
    }
}

impl fmt::Display for Refusal {
    ghost use Rattle.std.specs.Prelude.{Some};
    ghost use Rattle.grid.specs.Texts.{reason_of};

    ghost output = { λ r. Some (reason_of r) };

    fn fmt<W: fmt::Write>(&self, f: &mut fmt::Formatter<W>) -> fmt::Result {
        f.write_str(match self {
            Refusal::OffGrid => "a number is off the grid",
            Refusal::UpsideDown => "a low end is above its high end",
        })
    }
}

impl Error for Refusal {}
