//! The answers to the questions for parameters, position, version and fault, and the two short answers to an order.
//! Each is written at the front of the caller's buffer, is at most 80 bytes long, and is told by its length.
#![tactic(auto)]

mod acknowledgements;
mod fault_record;
mod parameters;
mod position;
mod version;

pub use acknowledgements::{acknowledge, refuse};
pub use fault_record::answer_fault;
pub use parameters::answer_parameters;
pub use position::answer_position;
pub use version::answer_version;
