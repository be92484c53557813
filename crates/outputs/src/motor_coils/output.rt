//! Coils as a step output with lines.
ghost use Rattle.std.specs.Prelude.{◌≡◌};
ghost use Rattle.outputs.specs.Coils.{coils_meaning};
ghost use Rattle.outputs.specs.Patterns.{pattern_of};
ghost use Rattle.std.proofs.Common.{rules};

use super::MotorCoils;
use crate::drive::Drive;
use crate::line_output::LineOutput;
use crate::step_output::StepOutput;
use steps::Direction;

impl<D: Drive> StepOutput for MotorCoils<D> {
    const CYCLE: u32 = D::CYCLE;

    ghost CYCLE = { D.Drive.CYCLE };

    ghost meaning = { coils_meaning };

    ghost bounded = { Prim.search rules };

    ghost divides = { D.Drive.divides };

    fn step(&mut self, direction: Direction) -> bool {
        if !self.power {
            return false;
        }
        match direction {
            Direction::Forward => self.forward(),
            Direction::Back => self.back(),
        }
        true
    }

    fn set_power(&mut self, on: bool) {
        self.power = on;
    }

    fn place(&self) -> u32 {
        self.cycles * D::CYCLE + self.index
    }

    fn power(&self) -> bool {
        self.power
    }
}

impl<D: Drive> LineOutput for MotorCoils<D> {
    ghost pattern = { pattern_of D.Drive.CYCLE D.Drive.patterns };

    ghost repeats = { D.Drive.repeats };

    // The pattern at the place within the cycle, and no line without power.
    fn lines(&self) -> u8 {
        if self.power {
            // The index is below the cycle, so that the cast loses nothing.
            D::patterns()[self.index as usize]
        } else {
            0
        }
    }
}
