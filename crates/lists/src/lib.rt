// Shape lists, pass lists and charts: records in the caller's memory as banks.
#![tactic(auto)]

mod chart;
mod pass_list;
mod shape_list;

pub use chart::Chart;
pub use pass_list::PassList;
pub use shape_list::ShapeList;
