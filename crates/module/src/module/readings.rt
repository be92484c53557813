//! What a module tells of itself.
ghost use Rattle.std.specs.Prelude.{◌≡◌};

use super::Module;
use axis::Axis;
use control::Control;
use faults::Fault;
use lines::Line;
use outputs::StepOutput;

impl<O: StepOutput> Module<O> {
    /// The fault record.
    pub fn fault(&self) -> Option<Fault>
        ensures { result ≡ self.now.fault }
    {
        self.fault
    }

    /// The unfinished line.
    pub fn held(&self) -> Line
        ensures { result ≡ self.now.receiver.line }
    {
        *self.receiver.held()
    }

    /// The settings, the sequences and what goes on.
    pub fn control(&self) -> &Control
        ensures { result.now ≡ self.now.control }
    {
        &self.control
    }

    /// The counter and the step output.
    pub fn axis(&self) -> &Axis<O>
        ensures { result.now ≡ self.now.axis }
    {
        &self.axis
    }
}
