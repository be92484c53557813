//! A sequence run once on a module, and what is told of it phase by phase.
#![tactic(auto)]

mod notes;
mod report;
mod row;

pub use notes::{MOST_TICKS, run};
pub use report::{Ending, Report};
pub use row::Row;
