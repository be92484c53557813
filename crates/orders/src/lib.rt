//! The commands, read from the words of a line, and lines judged row by row: receiver, reader, state, values and store.
#![tactic(auto)]

mod command;
mod intention;
mod names;
mod order;
mod read;
mod rows;
mod state;
mod values;

pub use command::Command;
pub use intention::{Intention, intended};
pub use order::{Judgement, Order, Situation};
pub use rows::judge;
