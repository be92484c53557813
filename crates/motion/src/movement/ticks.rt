//! One tick of a movement.
ghost use Rattle.std.specs.Prelude.{◌≡◌, ◌≤◌};
ghost use Rattle.motion.specs.Motions.{motion, motion_left, falling, next_ramp, speed_at, tick_step, tick_rest};
ghost use Rattle.motion.specs.Ticks.{TickBounds};

use super::Movement;
use steps::Direction;

// A tick is 1/40,000 s.
const TICKS_PER_SECOND: u32 = 40_000;

impl Movement {
    // Rule 1: whether the speed falls.
    fn falls(&self) -> bool
        ensures { result ≡ falling (motion self.now) }
    {
        self.left <= self.up || self.stopping
    }

    // Rule 1: k in this tick.
    fn next_ramp(&self) -> u32
        ensures value { result ≡ next_ramp (motion self.now) }
        ensures within { result ≤ self.now.top }
    {
        if self.constant {
            0
        } else if self.falls() {
            self.ramp.saturating_sub(1)
        } else if self.ramp < self.top {
            self.ramp + 1
        } else {
            self.ramp
        }
    }

    // Rule 3: the speed v at that k.
    fn speed_at(&self, ramp: u32) -> u32
        requires { ramp ≤ self.now.top }
        ensures value { result ≡ speed_at (motion self.now) ramp }
        ensures most { result ≤ 20000 }
    {
        let rise = u64::from(self.plateau - self.start);
        // The quotient is at most the rise, so that the cast loses nothing.
        u32::from(self.start) + (rise * u64::from(ramp) / u64::from(self.top)) as u32
    }

    /// One tick of 1/40,000 s: the step made, if any, and the movement if it goes on.
    pub fn tick(mut self) -> (Option<Direction>, Option<Movement>)
        ensures step { result.0 ≡ tick_step (motion self) }
        ensures rest { motion_left result.1 ≡ tick_rest (motion self) }
        ensures bounds { TickBounds (motion self) result.0 (motion_left result.1) }
    {
        let falls = self.falls();
        self.ramp = self.next_ramp();
        if self.stopping && self.ramp == 0 {
            return (None, None);
        }
        self.accumulated += self.speed_at(self.ramp);
        if self.accumulated < TICKS_PER_SECOND {
            return (None, Some(self));
        }
        self.accumulated -= TICKS_PER_SECOND;
        if self.left == 1 {
            return (Some(self.direction), None);
        }
        self.left -= 1;
        if !falls && self.ramp < self.top {
            self.up += 1;
        }
        (Some(self.direction), Some(self))
    }
}
