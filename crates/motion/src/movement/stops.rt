//! The slow stop of a movement.
ghost use Rattle.std.specs.Prelude.{◌≡◌, None};
ghost use Rattle.motion.specs.Motions.{motion, motion_left, stopped};
ghost use Rattle.motion.specs.Ticks.{after, StepsAtMost};

use super::Movement;

impl Movement {
    /// GE, the slow stop: the movement, which from now on slows down to its end; none if it is at the foot of its slope.
    pub fn stop(mut self) -> Option<Movement>
        ensures rest { motion_left result ≡ stopped (motion self) }
        ensures ends { after (motion self).top (motion_left result) ≡ None }
        ensures steps { StepsAtMost (motion self).left (motion self).direction (motion_left result) }
    {
        if self.ramp == 0 {
            return None;
        }
        self.stopping = true;
        Some(self)
    }
}
