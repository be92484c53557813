//! A speed, made only within its limits.
ghost use Rattle.std.specs.Prelude.{◌≡◌, ◌≤◌};
ghost use Rattle.motion.specs.Limits.{speed_of, speed_within};

use std::marker::Model;

/// A speed of 20 to 20,000 steps per second. Contracts see its number.
#[derive(Clone, Copy, PartialEq, Eq, PartialOrd, Ord)]
pub struct Speed {
    per_second: u16,
}

impl Model for Speed {
    ghost use Rattle.std.specs.Prelude.{ℕ, ◌≤◌};

    ghost Value = { ℕ };

    ghost view = { λ s. s.per_second };

    ghost invariant = { λ s. (20 ≤ s.per_second) × (s.per_second ≤ 20000) };

    ghost inverse = { λ n. record { per_second = n } };
}

impl Speed {
    /// VN of a new module.
    pub(crate) const INITIAL_START: Speed = Speed { per_second: 500 };

    /// VX of a new module.
    pub(crate) const INITIAL_PLATEAU: Speed = Speed { per_second: 2000 };

    /// A speed of 20 to 20,000 steps per second, and none of any other number.
    pub fn new(per_second: u64) -> Option<Speed>
        ensures { result ≡ speed_of per_second }
    {
        let per_second = u16::try_from(per_second).ok()?;
        if (20..=20_000).contains(&per_second) {
            Some(Speed { per_second })
        } else {
            None
        }
    }

    /// The speed that a set point says, in steps per second; none outside 20 to 20,000.
    pub fn of_set_point(set_point: i32) -> Option<Speed>
        ensures { result ≡ speed_within set_point }
    {
        Speed::new(u64::try_from(set_point).ok()?)
    }

    /// Steps per second, 20 to 20,000.
    pub fn per_second(self) -> u16
        ensures value { result ≡ self }
        ensures least { 20 ≤ result }
        ensures most { result ≤ 20000 }
    {
        self.per_second
    }
}
