//! What the programs have in common: what their arguments ask for, the files that they read, and how they end.
#![tactic(auto)]

mod address;
mod failed;
mod naming;
mod output;
mod program;
mod request;
mod script_arguments;
mod sheet_arguments;

pub use address::module_address;
pub use failed::Failed;
pub use output::Output;
pub use program::Program;
pub use request::{Request, WrongUse};
pub use script_arguments::script_request;
pub use sheet_arguments::{SheetRequest, sheet_request};
