//! The steps and the power of a pulse output, and the place that its counts give.
ghost use Rattle.std.specs.Prelude.{◌≡◌, refl};
ghost use Rattle.outputs.specs.Meaning.{stepped, switched};
ghost use Rattle.outputs.specs.Pulses.{counted, pulse_cycle, pulse_meaning, pulses};
ghost use Rattle.std.proofs.Common.{rules};

use crate::pulse::PulseOutput;
use crate::step_output::{PLACES, StepOutput};
use steps::Direction;

impl StepOutput for PulseOutput {
    const CYCLE: u32 = 1;

    ghost CYCLE = { pulse_cycle };

    ghost meaning = { pulse_meaning };

    ghost bounded = { Prim.search rules };

    ghost divides = { refl };

    // With power on one pulse is counted, of the step's direction.
    fn step(&mut self, direction: Direction) -> bool
        ensures accepted { result ≡ (pulse_meaning self.old).power }
        ensures moved { pulse_meaning self.new ≡ stepped direction (pulse_meaning self.old) }
        ensures counted { pulses self.new ≡ counted direction (pulse_meaning self.old).power (pulses self.old) }
    {
        if !self.power {
            return false;
        }
        match direction {
            Direction::Forward => self.forward = self.forward.wrapping_add(1),
            Direction::Back => self.back = self.back.wrapping_add(1),
        }
        true
    }

    // The counts stay too.
    fn set_power(&mut self, on: bool)
        ensures meaning { pulse_meaning self.new ≡ switched on (pulse_meaning self.old) }
        ensures counts { pulses self.new ≡ pulses self.old }
    {
        self.power = on;
    }

    fn place(&self) -> u32 {
        self.forward.wrapping_sub(self.back) % PLACES
    }

    fn power(&self) -> bool {
        self.power
    }
}
