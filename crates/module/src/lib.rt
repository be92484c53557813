//! The module: a line, a fault record, its control and its axis, over any step output.
#![tactic(auto)]

mod effects;
mod module;

pub use module::Module;
