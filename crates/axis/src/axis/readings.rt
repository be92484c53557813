//! What an axis tells of itself.
ghost use Rattle.std.specs.Prelude.{◌≡◌, ◌^◌, ◌<◌};

use super::Axis;
use outputs::StepOutput;

impl<O: StepOutput> Axis<O> {
    /// The counter, -8,388,608 to 8,388,607 as steps leave it.
    pub fn counter(&self) -> i32
        ensures { result ≡ self.now.state.counter }
    {
        self.counter
    }

    /// The place of the output, 0 to 16,777,215.
    pub fn place(&self) -> u32
        ensures told { result ≡ self.now.state.place }
        ensures below { result < 2 ^ 24 }
    {
        self.output.place()
    }

    /// Whether power is on.
    pub fn power(&self) -> bool
        ensures { result ≡ self.now.state.power }
    {
        self.output.power()
    }

    /// The output, to look at: its lines or its pulse counts.
    pub fn output(&self) -> &O
        ensures same { result.now ≡ self.now.output }
        ensures place { (O.StepOutput.meaning result.now).place ≡ self.now.state.place }
        ensures power { (O.StepOutput.meaning result.now).power ≡ self.now.state.power }
    {
        &self.output
    }
}
