// The knitting grid: places, the cells that hold them, and what is done with cells.
#![tactic(auto)]

mod axis;
mod bare;
mod cell;
mod coordinates;
mod halves;
mod place;
mod refusal;

pub use axis::Axis;
pub use bare::BarePlace;
pub use cell::Cell;
pub use coordinates::{Coordinates, is_below};
pub use place::Place;
pub use refusal::Refusal;
