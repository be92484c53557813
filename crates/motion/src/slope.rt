//! The time of a slope, made only within its limits.
ghost use Rattle.std.specs.Prelude.{◌≡◌, ◌≤◌};
ghost use Rattle.motion.specs.Limits.{slope_of};

use std::marker::Model;

/// The time from the start speed up to the plateau, 1 to 65,000 ms. Contracts see its number.
#[derive(Clone, Copy, PartialEq, Eq)]
pub struct Slope {
    milliseconds: u16,
}

impl Model for Slope {
    ghost use Rattle.std.specs.Prelude.{ℕ, ◌≤◌};

    ghost Value = { ℕ };

    ghost view = { λ s. s.milliseconds };

    ghost invariant = { λ s. (1 ≤ s.milliseconds) × (s.milliseconds ≤ 65000) };

    ghost inverse = { λ n. record { milliseconds = n } };
}

impl Slope {
    /// TR of a new module.
    pub(crate) const INITIAL: Slope = Slope { milliseconds: 1000 };

    /// A slope of 1 to 65,000 ms, and none of any other number.
    pub fn new(milliseconds: u64) -> Option<Slope>
        ensures { result ≡ slope_of milliseconds }
    {
        let milliseconds = u16::try_from(milliseconds).ok()?;
        if (1..=65_000).contains(&milliseconds) {
            Some(Slope { milliseconds })
        } else {
            None
        }
    }

    /// Milliseconds, 1 to 65,000.
    pub fn milliseconds(self) -> u16
        ensures value { result ≡ self }
        ensures least { 1 ≤ result }
        ensures most { result ≤ 65000 }
    {
        self.milliseconds
    }
}
