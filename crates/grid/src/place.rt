ghost use Rattle.grid.specs.Axes.{Below, top, along};

use crate::axis::Axis;
use crate::bare::BarePlace;
use crate::coordinates::Coordinates;
use crate::refusal::Refusal;

// A place of the knitting grid.
#[derive(Clone, Copy, PartialEq, Eq, Debug)]
pub struct Place {
    needle: u16,
    course: u16,
    track: u16,
    ghost on_grid: { Below (along needle course track) top },
}

impl Place {
    ghost use Rattle.std.specs.Prelude.{◌≡◌, ◌≤◌, ℕ, min, max};
    ghost use Rattle.grid.specs.declared.axis.Axis.{Axis};
    ghost use Rattle.grid.specs.declared.axis.Axis.TheVariants.{Needle, Course, Track};
    ghost use Rattle.grid.specs.Places.{at};
    ghost use Rattle.grid.specs.Refusals.{numbered, numbers, place_of};

    // The place with these numbers; refused if one is off the grid. Every course of 16 bits is on it. (The one way from bare
    // numbers to a place: a TryFrom beside it would say the same again.)
    pub fn new(bare: BarePlace) -> Result<Place, Refusal>
        ensures { numbered result ≡ place_of bare }
    {
        if bare.needle > Axis::Needle.last() || bare.track > Axis::Track.last() {
            return Err(Refusal::OffGrid);
        }
        Ok(Place {
            needle: bare.needle,
            course: bare.course,
            track: bare.track,
        })
    }

    // The place with the number that is told for each axis.
    pub(crate) fn from_fn<F: Fn(Axis) -> u16>(number: F) -> Place
        requires callable { F.IsAlwaysCallable number }
        requires on_grid { (x : Axis) (n : ℕ) → F.post number x n → n ≤ top x }
        ensures { (x : Axis) → F.post number x (at result x) }
    {
        Place {
            needle: number(Axis::Needle),
            course: number(Axis::Course),
            track: number(Axis::Track),
        }
    }

    // The numbers, with those past the grid's last brought back to it.
    pub(crate) fn clipped(bare: BarePlace) -> Place
        ensures { (x : Axis) → at result x ≡ min (numbers bare x) (top x) }
    {
        Place::from_fn(|axis| bare.on(axis).min(axis.last()))
    }

    // The greater of the two numbers on each axis.
    pub(crate) fn greater(self, other: Place) -> Place
        ensures { (x : Axis) → at result x ≡ max (at self x) (at other x) }
    {
        Place::from_fn(|axis| self.on(axis).max(other.on(axis)))
    }

    // The lesser of the two numbers on each axis.
    pub(crate) fn lesser(self, other: Place) -> Place
        ensures { (x : Axis) → at result x ≡ min (at self x) (at other x) }
    {
        Place::from_fn(|axis| self.on(axis).min(other.on(axis)))
    }

    // The three readers by name: a call says which number it reads more plainly than with an axis for an argument.
    pub fn needle(&self) -> u16
        ensures { result ≡ at self.now Needle }
    {
        self.on(Axis::Needle)
    }

    pub fn course(&self) -> u16
        ensures { result ≡ at self.now Course }
    {
        self.on(Axis::Course)
    }

    pub fn track(&self) -> u16
        ensures { result ≡ at self.now Track }
    {
        self.on(Axis::Track)
    }
}

impl Coordinates for Place {
    ghost use Rattle.grid.specs.Places.{at};

    ghost along = { at };

    fn on(&self, axis: Axis) -> u16 {
        match axis {
            Axis::Needle => self.needle,
            Axis::Course => self.course,
            Axis::Track => self.track,
        }
    }
}
