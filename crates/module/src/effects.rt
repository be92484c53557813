//! The axis moved as orders and ticks say.
ghost use Rattle.std.specs.Prelude.{◌≡◌};
ghost use Rattle.module.specs.States.{powered, changed, stepped, step_made, step_due, affected, step_of};

use axis::Axis;
use control::Change;
use engine::Effects;
use outputs::StepOutput;
use steps::{Direction, Power};

fn switch<O: StepOutput>(axis: &mut Axis<O>, power: Option<Power>)
    ensures { axis.new.state ≡ powered power axis.old.state }
{
    if let Some(power) = power {
        axis.set_power(matches!(power, Power::On));
    }
}

// What an order does to the axis.
pub(crate) fn change<O: StepOutput>(axis: &mut Axis<O>, change: Change)
    ensures { axis.new.state ≡ changed change axis.old.state }
{
    if let Some(counter) = change.counter {
        axis.set_counter(counter);
    }
    switch(axis, change.power);
}

// Asks for a step, if one is due, and answers it where it is made.
fn step<O: StepOutput>(axis: &mut Axis<O>, due: Option<Direction>) -> Option<Direction>
    ensures made { step_due result ≡ step_made due axis.old.state }
    ensures axis { axis.new.state ≡ stepped due axis.old.state }
{
    let direction = due?;
    axis.step(direction).then_some(direction)
}

// What a tick does to the axis; answers the step where one is made.
pub(crate) fn affect<O: StepOutput>(axis: &mut Axis<O>, effects: &Effects) -> Option<Direction>
    ensures made { step_due result ≡ step_of effects.now axis.old.state }
    ensures axis { axis.new.state ≡ affected effects.now axis.old.state }
{
    switch(axis, effects.power);
    let made = step(axis, effects.step);
    if effects.zero_counter {
        axis.set_counter(0);
    }
    made
}
