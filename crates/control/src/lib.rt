//! What a module does without its step output: settings, sequences, movements and runs.
#![tactic(auto)]

mod activity;
mod change;
mod control;
mod obey;
mod ticks;

pub use activity::Activity;
pub use change::{Answer, Change};
pub use control::Control;
