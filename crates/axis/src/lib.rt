//! One axis: a counter beside a step output, which count and step together.
#![tactic(auto)]

pub mod axis;

pub use axis::Axis;
