//! The steps and the power of a dry-run output, and the place that its number gives.
ghost use Rattle.std.specs.Prelude.{◌≡◌, refl};
ghost use Rattle.outputs.specs.DryRuns.{dry_cycle, dry_meaning, dry_number, numbered};
ghost use Rattle.outputs.specs.Meaning.{stepped, switched};
ghost use Rattle.outputs.specs.InRange.{dry_place_below};

use super::DryRunOutput;
use super::number::next_number;
use crate::step_output::{PLACES, StepOutput};
use steps::Direction;

impl StepOutput for DryRunOutput {
    const CYCLE: u32 = 1;

    ghost CYCLE = { dry_cycle };

    ghost meaning = { dry_meaning };

    ghost bounded = { dry_place_below };

    ghost divides = { refl };

    // With power on the number becomes the next one in the direction.
    fn step(&mut self, direction: Direction) -> bool
        ensures accepted { result ≡ (dry_meaning self.old).power }
        ensures moved { dry_meaning self.new ≡ stepped direction (dry_meaning self.old) }
        ensures numbered { dry_number self.new ≡ numbered direction (dry_meaning self.old).power (dry_number self.old) }
    {
        if !self.power {
            return false;
        }
        self.number = next_number(direction, self.number);
        true
    }

    // The number stays too.
    fn set_power(&mut self, on: bool)
        ensures meaning { dry_meaning self.new ≡ switched on (dry_meaning self.old) }
        ensures number { dry_number self.new ≡ dry_number self.old }
    {
        self.power = on;
    }

    fn place(&self) -> u32 {
        self.number.rem_euclid(PLACES as i32) as u32
    }

    fn power(&self) -> bool {
        self.power
    }
}
