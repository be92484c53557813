//! The direction of a step, a movement or a phase.
ghost use Rattle.std.specs.Prelude.{◌≡◌};
ghost use Rattle.steps.specs.Directions.{direction_sign, one_step};

/// The direction of a step: forward adds one to a counter, back takes one from it.
#[derive(Clone, Copy, PartialEq, Eq, Debug)]
pub enum Direction {
    Forward,
    Back,
}

impl Direction {
    /// One step as a number: 1 forward, -1 back.
    pub fn one_step(self) -> i8
        ensures { result ≡ one_step self }
    {
        match self {
            Direction::Forward => 1,
            Direction::Back => -1,
        }
    }

    /// The direction as a text writes it: + forward, - back.
    pub fn sign(self) -> u8
        ensures { result ≡ direction_sign self }
    {
        match self {
            Direction::Forward => b'+',
            Direction::Back => b'-',
        }
    }
}
