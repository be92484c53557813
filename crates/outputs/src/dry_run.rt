//! An output for a module with no drive attached: a number that tells where the table would stand, and power.
ghost use Rattle.std.specs.Prelude.{pos, negsuc, ◌≤ℤ◌};

mod number;
mod output;

/// An output that moves nothing, and keeps its place as one number, -8,388,608 to 8,388,607. A step forward from 8,388,607 leads to
/// -8,388,608, and a step back from there to 8,388,607.
#[derive(Drop)]
pub struct DryRunOutput {
    number: i32,
    power: bool,
    ghost at_least: { negsuc 8388607 ≤ℤ number },
    ghost at_most: { number ≤ℤ pos 8388607 },
}
