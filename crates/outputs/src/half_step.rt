//! Half steps: a cycle of eight line patterns, with one coil on between two full steps.
ghost use Rattle.std.specs.Prelude.{refl};
ghost use Rattle.outputs.specs.Patterns.{half_cycle, half_patterns};
ghost use Rattle.outputs.specs.Repeating.{half_repeats};

use crate::drive::Drive;
use crate::motor_coils::MotorCoils;

const PATTERNS: [u8; 8] = [5, 4, 6, 2, 10, 8, 9, 1];

/// Half steps: eight patterns, with one coil on between two full steps.
pub struct HalfStep;

impl Drive for HalfStep {
    const CYCLE: u32 = 8;

    ghost CYCLE = { half_cycle };

    ghost patterns = { half_patterns };

    fn patterns() -> &'static [u8] {
        &PATTERNS
    }

    ghost complete = { refl };

    ghost divides = { refl };

    ghost repeats = { half_repeats };
}

/// The coils of a motor driven in half steps.
pub type HalfStepCoils = MotorCoils<HalfStep>;
