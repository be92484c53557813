//! What an accepted order does outside the control.
ghost use Rattle.std.specs.Prelude.{◌≡◌};
ghost use Rattle.control.specs.Obeyed.{accepted, counter_set, power_set, answers, fault_told, restart_change};

use phases::{Phase, Position};
use steps::Power;

/// What an accepted order is answered, where it is an own line.
#[derive(Clone, Copy)]
pub enum Answer {
    /// 06h 11h.
    Accepted,
    /// RS: the phase at a position, and its record.
    Phase { at: Position, record: Phase },
    /// RL: the settings.
    Parameters,
    /// RP: the counter, the levels and the outputs.
    Position,
    /// RV: the version, and the cycle of the step output.
    Version,
    /// RX: the fault record.
    Fault,
}

/// A value for the counter, power switched, whether the fault record is cleared once it is told, and what is answered.
#[derive(Clone, Copy)]
pub struct Change {
    pub counter: Option<i32>,
    pub power: Option<Power>,
    pub clears_fault: bool,
    pub answer: Answer,
}

impl Change {
    // Nothing is done outside, and the order is answered as accepted.
    pub(crate) fn accepted() -> Change
        ensures { result ≡ accepted }
    {
        Change {
            counter: None,
            power: None,
            clears_fault: false,
            answer: Answer::Accepted,
        }
    }

    // The counter is set.
    pub(crate) fn counter(value: i32) -> Change
        ensures { result ≡ counter_set value }
    {
        Change {
            counter: Some(value),
            ..Change::accepted()
        }
    }

    // Power is switched.
    pub(crate) fn power(power: Power) -> Change
        ensures { result ≡ power_set power }
    {
        Change {
            power: Some(power),
            ..Change::accepted()
        }
    }

    // A question is answered.
    pub(crate) fn answer(answer: Answer) -> Change
        ensures { result ≡ answers answer }
    {
        Change {
            answer,
            ..Change::accepted()
        }
    }

    // RX is answered by the fault record, which is cleared.
    pub(crate) fn fault() -> Change
        ensures { result ≡ fault_told }
    {
        Change {
            clears_fault: true,
            ..Change::answer(Answer::Fault)
        }
    }

    // Power-up and MR set the counter to 0, cut power and clear the fault record; a chosen sequence starts and switches power on.
    pub(crate) fn restart(chosen: Option<u8>) -> Change
        ensures { result ≡ restart_change chosen }
    {
        let power = if chosen.is_some() {
            Power::On
        } else {
            Power::Off
        };
        Change {
            counter: Some(0),
            power: Some(power),
            clears_fault: true,
            answer: Answer::Accepted,
        }
    }
}
