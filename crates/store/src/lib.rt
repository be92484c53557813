//! The phase memory: the records of the sequences' phases, and the directory of the sequences.
#![tactic(auto)]

mod directory;
mod laws;
mod store;

pub use directory::{Block, Directory, RECORDS, Span, check_memory};
pub use laws::store_laws;
pub use store::Store;
