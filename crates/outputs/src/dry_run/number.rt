//! The number of a dry-run output.
ghost use Rattle.std.specs.Prelude.{◌≡◌, pos};
ghost use Rattle.outputs.specs.DryRuns.{dry_meaning, dry_number, next_number};
ghost use Rattle.outputs.specs.Meaning.{initial};
ghost use Rattle.steps.specs.Wrap.{wrapped24};

use super::DryRunOutput;
use steps::{Direction, wrapped24};

// One further in a direction.
pub(super) fn next_number(direction: Direction, number: i32) -> i32
    ensures { result ≡ next_number direction number }
{
    wrapped24(i64::from(number) + i64::from(direction.one_step()))
}

impl DryRunOutput {
    /// An output at number 0 with power off.
    pub fn new() -> DryRunOutput
        ensures meaning { dry_meaning result ≡ initial }
        ensures number { dry_number result ≡ pos 0 }
    {
        DryRunOutput {
            number: 0,
            power: false,
        }
    }

    /// The number, -8,388,608 to 8,388,607: the place wrapped to 24 bits.
    pub fn number(&self) -> i32
        ensures told { result ≡ dry_number self.now }
        ensures place { result ≡ wrapped24 (pos (dry_meaning self.now).place) }
    {
        self.number
    }
}
