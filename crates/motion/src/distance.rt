//! How many steps a movement makes, and in which direction.
ghost use Rattle.std.specs.Prelude.{◌≡◌};
ghost use Rattle.motion.specs.Distances.{distance_to};

use steps::Direction;

/// A number of steps in a direction.
#[derive(Clone, Copy)]
pub struct Distance {
    pub direction: Direction,
    pub steps: u32,
}

impl Distance {
    /// From the counter to the goal, both in steps: the plain difference, its sign being the direction.
    pub fn to(goal: i32, counter: i32) -> Distance
        ensures { result ≡ distance_to goal counter }
    {
        Distance {
            direction: if goal < counter {
                Direction::Back
            } else {
                Direction::Forward
            },
            steps: goal.abs_diff(counter),
        }
    }
}
