//! What comes off the serial line: characters gathered into lines, and whom a line is for.
#![tactic(auto)]

mod address;
mod character;
mod line;
mod receiver;

pub use address::check_address;
pub use character::Character;
pub use line::{Addressee, Line};
pub use receiver::Receiver;
