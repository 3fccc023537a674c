// Which places have a stitch.
ghost use Rattle.std.specs.Prelude.{◌≡◌};
ghost use Rattle.charts.specs.Charts.{byte_at, names, stitch_set};

use crate::frame::Frame;
use grid::Place;

// Whether there is a byte and it names the track.
fn names_track(byte: Option<u8>, track: u16) -> bool
    ensures { result ≡ names byte track }
{
    byte.is_some_and(|byte| byte < 8 && byte as u16 == track)
}

impl Frame {
    // The byte at a needle and a course, if the chart has one there.
    pub(crate) fn byte_at(&self, bytes: &[u8], needle: u16, course: u16) -> Option<u8>
        ensures { result ≡ byte_at self.now bytes.now needle course }
    {
        let column = needle.checked_sub(self.left)?;
        let row = course.checked_sub(self.first)?;
        if column >= self.width {
            return None;
        }
        let index = row as usize * self.width as usize + column as usize;
        bytes.get(index).copied()
    }

    // Whether the bytes have a stitch at a place.
    pub fn stitches(&self, bytes: &[u8], place: Place) -> bool
        ensures { result ≡ stitch_set self.now bytes.now place }
    {
        names_track(
            self.byte_at(bytes, place.needle(), place.course()),
            place.track(),
        )
    }
}
