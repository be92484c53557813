//! What a step output is asked, and what it answers.
ghost use Rattle.std.specs.Prelude.{◌≡◌};
ghost use Rattle.outputs.specs.Requests.{answer_of, meaning_after};

use crate::step_output::StepOutput;
use steps::Direction;

/// What a step output is asked: a step, a switch of power, or a question.
#[derive(Clone, Copy, PartialEq, Eq, Debug)]
pub enum Request {
    /// One step.
    Step(Direction),
    /// Power is switched: on at true, off at false.
    SetPower(bool),
    /// What its place is.
    Place,
    /// Whether power is on.
    Power,
    /// What its cycle is.
    Cycle,
}

/// What a step output answers to a request.
#[derive(Clone, Copy, PartialEq, Eq, Debug)]
pub enum Answer {
    /// Whether the step was made.
    Made(bool),
    /// Power was switched.
    Switched,
    /// The place, 0 to 16,777,215.
    Place(u32),
    /// Whether power is on.
    Power(bool),
    /// The number of places after which the lines repeat.
    Cycle(u32),
}

impl Request {
    // Makes the request of an output.
    pub(crate) fn make<O: StepOutput>(self, output: &mut O) -> Answer
        ensures answer { result ≡ answer_of O.StepOutput.CYCLE self (O.StepOutput.meaning output.old) }
        ensures meaning { O.StepOutput.meaning output.new ≡ meaning_after self (O.StepOutput.meaning output.old) }
    {
        match self {
            Request::Step(direction) => Answer::Made(output.step(direction)),
            Request::SetPower(on) => {
                output.set_power(on);
                Answer::Switched
            }
            Request::Place => Answer::Place(output.place()),
            Request::Power => Answer::Power(output.power()),
            Request::Cycle => Answer::Cycle(O::CYCLE),
        }
    }
}
