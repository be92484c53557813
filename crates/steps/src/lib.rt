//! What a step, a movement and a switch of power have in common: the direction, the power of an output, and numbers wrapped to 24 bits.
#![tactic(auto)]

mod direction;
mod power;
mod wrapped;

pub use direction::Direction;
pub use power::Power;
pub use wrapped::wrapped24;
