//! The start of a movement, and what can be asked of one.
ghost use Rattle.std.specs.Prelude.{◌≡◌, ◌*◌, replicate, None};
ghost use Rattle.motion.specs.Values.{values};
ghost use Rattle.motion.specs.Motions.{motion, motion_left, plateau_of, begun};
ghost use Rattle.motion.specs.Ticks.{after, made, SpeedAtMost};

use super::Movement;
use crate::distance::Distance;
use crate::parameters::Parameters;
use crate::speed::Speed;

const TICKS_PER_MS: u32 = 40;

impl Movement {
    /// Starts a movement over that distance; none for zero steps. The plateau is VX, or the speed asked for, but at least VN.
    /// A constant movement (NV) stays at VN.
    pub fn new(
        parameters: Parameters,
        speed: Option<Speed>,
        distance: Distance,
        constant: bool,
    ) -> Option<Movement>
        ensures begun { motion_left result ≡ begun (values parameters) speed distance.direction distance.steps constant }
        ensures makes { made (2000 * distance.steps) (motion_left result) ≡ replicate distance.steps distance.direction }
        ensures ends { after (2000 * distance.steps) (motion_left result) ≡ None }
        ensures plateau { SpeedAtMost (plateau_of (values parameters) speed) (motion_left result) }
    {
        if distance.steps == 0 {
            return None;
        }
        let start = parameters.start_speed();
        let plateau = match speed {
            Some(speed) => speed.per_second(),
            None => parameters.plateau_speed(),
        };
        Some(Movement {
            direction: distance.direction,
            left: distance.steps,
            ramp: 0,
            up: 0,
            accumulated: 0,
            start,
            plateau: plateau.max(start),
            top: TICKS_PER_MS * u32::from(parameters.slope()),
            constant,
            stopping: false,
        })
    }

    /// Whether GE was given.
    pub fn is_stopping(&self) -> bool
        ensures { result ≡ (motion self.now).stopping }
    {
        self.stopping
    }
}
