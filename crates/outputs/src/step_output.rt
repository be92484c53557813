//! What every step output does: it takes steps, which move its place, and has its power switched.
ghost use Rattle.std.specs.Prelude.{◌≡◌, ℕ, ◌%◌, ◌^◌, ◌<◌};
ghost use Rattle.outputs.specs.Meaning.{Meaning, stepped, switched};

use steps::Direction;

// The number of places, 2^24.
pub(crate) const PLACES: u32 = 0x100_0000;

/// An output that steps a motor: a place of 0 to 16,777,215, which each step with power on moves by one modulo 2^24, and power.
pub trait StepOutput {
    /// The number of places after which the output's lines repeat.
    const CYCLE: u32;

    ghost CYCLE: { ℕ };

    // The place and the power of an output.
    ghost meaning: { Self → Meaning };

    /// One step, and whether it was made: with power on the place moves by one; with power off the step is refused and the place stays.
    fn step(&mut self, direction: Direction) -> bool
        ensures accepted { result ≡ (meaning self.old).power }
        ensures moved { meaning self.new ≡ stepped direction (meaning self.old) };

    /// Switches power on or off; the place stays.
    fn set_power(&mut self, on: bool)
        ensures { meaning self.new ≡ switched on (meaning self.old) };

    /// The place, 0 to 16,777,215.
    fn place(&self) -> u32
        ensures { result ≡ (meaning self.now).place };

    /// Whether power is on.
    fn power(&self) -> bool
        ensures { result ≡ (meaning self.now).power };

    ghost bounded: { (o : Self) → (meaning o).place < 2 ^ 24 };

    ghost divides: { 2 ^ 24 % CYCLE ≡ 0 };
}
