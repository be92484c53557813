//! What a step output with lines to motor coils does: the lines follow its place and power, and repeat after its cycle.
ghost use Rattle.std.specs.Prelude.{◌≡◌, ℕ};
ghost use Rattle.outputs.specs.Meaning.{Meaning};
ghost use Rattle.outputs.specs.Patterns.{Repeats};

use crate::step_output::StepOutput;

/// A step output with lines to the coils of a motor. The lines repeat after exactly the cycle.
pub trait LineOutput: StepOutput {
    // The line pattern at a place and a power.
    ghost pattern: { Meaning → ℕ };

    /// The lines that are on: bit 0 is A+, bit 1 A-, bit 2 B+, bit 3 B-.
    fn lines(&self) -> u8
        ensures { result ≡ pattern (Self.StepOutput.meaning self.now) };

    ghost repeats: { Repeats Self.StepOutput.CYCLE pattern };
}
