//! What a direct movement goes by.
ghost use Rattle.std.specs.Prelude.{◌≡◌};
ghost use Rattle.motion.specs.Settings.{settings, initial_settings};

use crate::parameters::Parameters;
use steps::Direction;

/// The speeds and the slope, the distance DR in steps, and the direction D+ or D-.
#[derive(Clone, Copy)]
pub struct Settings {
    pub parameters: Parameters,
    pub distance: u32,
    pub direction: Direction,
}

impl Settings {
    /// The settings of a new module: its parameters, no steps, forward.
    pub fn initial() -> Settings
        ensures { settings result ≡ initial_settings }
    {
        Settings {
            parameters: Parameters::initial(),
            distance: 0,
            direction: Direction::Forward,
        }
    }
}
