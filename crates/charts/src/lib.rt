// Stitch charts: rows of bytes in a frame, each byte below 8 the track of a stitch. The last row may be partial.
#![tactic(auto)]

mod bound;
mod frame;
mod judging;
mod stitches;

pub use frame::Frame;
