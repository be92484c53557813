//! The counter and the step output of an axis.
use outputs::StepOutput;
use std::marker::Model;

mod calls;
mod readings;

/// A step output with its counter, which counts each step that is made.
#[derive(Drop)]
pub struct Axis<O: StepOutput> {
    output: O,
    counter: i32,
}

impl<O: StepOutput> Model for Axis<O> {
    ghost use Rattle.axis.specs.Axes.{AxisView, axis_view};

    ghost Value = { AxisView O };

    ghost view = { λ a. axis_view (O.StepOutput.meaning a.output) a.counter a.output };
}
