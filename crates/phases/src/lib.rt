//! The record of a phase and its limits.
#![tactic(auto)]

mod phase;

pub use phase::{Inputs, Link, Nature, Phase, Position, next_fits};
