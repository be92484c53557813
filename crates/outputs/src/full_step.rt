//! Full steps: a cycle of four line patterns, with both coils on at each place.
ghost use Rattle.std.specs.Prelude.{refl};
ghost use Rattle.outputs.specs.Patterns.{full_cycle, full_patterns};
ghost use Rattle.outputs.specs.Repeating.{full_repeats};

use crate::drive::Drive;
use crate::motor_coils::MotorCoils;

const PATTERNS: [u8; 4] = [5, 6, 10, 9];

/// Full steps: four patterns, with both coils on at each place.
pub struct FullStep;

impl Drive for FullStep {
    const CYCLE: u32 = 4;

    ghost CYCLE = { full_cycle };

    ghost patterns = { full_patterns };

    fn patterns() -> &'static [u8] {
        &PATTERNS
    }

    ghost complete = { refl };

    ghost divides = { refl };

    ghost repeats = { full_repeats };
}

/// The coils of a motor driven in full steps.
pub type FullStepCoils = MotorCoils<FullStep>;
