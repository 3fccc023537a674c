// Banks and patterns made from others: a pattern lifted to a bank, and two banks side by side.
#![tactic(auto)]

mod lifted;
mod pair;

pub use lifted::Lifted;
pub use pair::Pair;
