//! The proof sheet of a sequence file: what became of each line, and the shelf held against the module, and the runs.
#![tactic(auto)]

mod entry;
mod reading;
mod sheet;
mod shelf;
mod text;
mod unreadable;
mod verdict;

pub use entry::{Entry, LineOutcome};
pub use reading::proofread;
pub use sheet::Sheet;
pub use shelf::IntendedPhase;
pub use unreadable::Unreadable;
pub use verdict::{ShelfPhase, Verdict};
