//! What an axis does: it steps, and its counter and its power are set.
ghost use Rattle.std.specs.Prelude.{◌≡◌};
ghost use Rattle.axis.specs.Axes.{new_axis, axis_stepped, with_counter, with_power, offset};

use super::Axis;
use outputs::StepOutput;
use steps::{Direction, wrapped24};

impl<O: StepOutput> Axis<O> {
    /// An axis over this output: its power is cut, its place stays, and the counter is 0.
    pub fn new(mut output: O) -> Axis<O>
        ensures { result.state ≡ new_axis (O.StepOutput.meaning output) }
    {
        output.set_power(false);
        Axis { output, counter: 0 }
    }

    /// One step: with power on, counter and place move by one; with power off, nothing changes. True if the step was made.
    pub fn step(&mut self, direction: Direction) -> bool
        ensures made { result ≡ self.old.state.power }
        ensures moved { self.new.state ≡ axis_stepped direction self.old.state }
        ensures alike { offset self.new.state ≡ offset self.old.state }
    {
        let made = self.output.step(direction);
        if made {
            self.counter = wrapped24(i64::from(self.counter) + i64::from(direction.one_step()));
        }
        made
    }

    /// Sets the counter; place and power stay.
    pub fn set_counter(&mut self, value: i32)
        ensures { self.new.state ≡ with_counter value self.old.state }
    {
        self.counter = value;
    }

    /// Switches power on or off; counter and place stay.
    pub fn set_power(&mut self, on: bool)
        ensures { self.new.state ≡ with_power on self.old.state }
    {
        self.output.set_power(on);
    }
}
