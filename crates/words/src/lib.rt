//! The words of a line: what stands between single spaces, each told with its number.
#![tactic(auto)]

mod numbers;
mod reader;
mod word;

pub use numbers::{decimal_value, hexadecimal_value, signed_value};
pub use reader::{Reader, cut};
pub use word::{Placed, Word};
