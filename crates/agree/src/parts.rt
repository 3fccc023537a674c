// The parts of a workspace that are looked at one by one.
ghost use Rattle.std.specs.Prelude.{◌≡◌};
ghost use Rattle.agree.specs.Courses.{CourseOf};
ghost use Rattle.agree.specs.Quarters.{quarters_of};

use grid::{BarePlace, Cell};

// The halves of the lower and of the upper half; none if one of these cannot be halved.
pub fn quarters(workspace: &Cell) -> Option<((Cell, Cell), (Cell, Cell))>
    ensures { result ≡ quarters_of workspace.now }
{
    let (lower, upper) = workspace.halve()?;
    Some((lower.halve()?, upper.halve()?))
}

// The part of the workspace that lies in one course.
pub fn course_of(workspace: &Cell, course: u16) -> Option<Cell>
    ensures { CourseOf workspace.now course result }
{
    let low = BarePlace {
        needle: 0,
        course,
        track: 0,
    };
    let high = BarePlace {
        needle: 4095,
        course,
        track: 7,
    };
    workspace.cut(Cell::workspace(low, high).ok()?)
}
