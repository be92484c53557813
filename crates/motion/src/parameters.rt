//! The parameters that set the speeds of a movement.
ghost use Rattle.std.specs.Prelude.{◌≡◌, ◌≤◌};

use crate::slope::Slope;
use crate::speed::Speed;

/// The start speed VN, the plateau speed VX, which is at least VN, and the slope TR.
#[derive(Clone, Copy)]
pub struct Parameters {
    start: Speed,
    plateau: Speed,
    slope: Slope,
    ghost order: { start ≤ plateau },
}

impl Parameters {
    ghost use Rattle.motion.specs.Values.{values, initial_values};

    /// Those of a new module: 500 and 2,000 steps per second, 1,000 ms.
    pub fn initial() -> Parameters
        ensures { values result ≡ initial_values }
    {
        Parameters {
            start: Speed::INITIAL_START,
            plateau: Speed::INITIAL_PLATEAU,
            slope: Slope::INITIAL,
        }
    }

    /// These with that start speed, which is at most the plateau speed.
    pub fn with_start_speed(mut self, start: Speed) -> Parameters
        requires { start ≤ (values self).plateau_speed }
        ensures { values result ≡ record (values self) { start_speed = start } }
    {
        self.start = start;
        self
    }

    /// These with that plateau speed, which is at least the start speed.
    pub fn with_plateau_speed(mut self, plateau: Speed) -> Parameters
        requires { (values self).start_speed ≤ plateau }
        ensures { values result ≡ record (values self) { plateau_speed = plateau } }
    {
        self.plateau = plateau;
        self
    }

    /// These with that slope.
    pub fn with_slope(mut self, slope: Slope) -> Parameters
        ensures { values result ≡ record (values self) { slope_time = slope } }
    {
        self.slope = slope;
        self
    }

    /// VN in steps per second, 20 to 20,000.
    pub fn start_speed(&self) -> u16
        ensures value { result ≡ (values self.now).start_speed }
        ensures least { 20 ≤ result }
        ensures most { result ≤ 20000 }
    {
        self.start.per_second()
    }

    /// VX in steps per second, from VN to 20,000.
    pub fn plateau_speed(&self) -> u16
        ensures value { result ≡ (values self.now).plateau_speed }
        ensures least { (values self.now).start_speed ≤ result }
        ensures most { result ≤ 20000 }
    {
        self.plateau.per_second()
    }

    /// TR in milliseconds, 1 to 65,000.
    pub fn slope(&self) -> u16
        ensures value { result ≡ (values self.now).slope_time }
        ensures least { 1 ≤ result }
        ensures most { result ≤ 65000 }
    {
        self.slope.milliseconds()
    }
}
