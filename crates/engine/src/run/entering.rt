//! The tick that enters a phase: it sets NO and starts the movement or the wait.
ghost use Rattle.std.specs.Prelude.{◌≡◌};
ghost use Rattle.engine.specs.Progress.{progress, outcome};
ghost use Rattle.engine.specs.Surroundings.{program, moment};
ghost use Rattle.engine.specs.Entering.{power_of, entered, moves_by, starts, phase_at, enters};

use super::{PhaseState, Run};
use crate::distance::distance_of;
use crate::effects::Effects;
use crate::outcome::Outcome;
use crate::surroundings::Surroundings;
use motion::{Distance, Movement, Speed};
use phases::{Nature, Phase};
use steps::Power;

const TICKS_PER_MS: u64 = 40;

// A movement phase and NT switch power on, NU switches it off.
fn power_of(nature: Nature) -> Option<Power>
    ensures { result ≡ power_of nature }
{
    match nature {
        Nature::Wait | Nature::ZeroCounter | Nature::PlateauSpeed => None,
        Nature::PowerOff => Some(Power::Off),
        _ => Some(Power::On),
    }
}

// Entering the phase switches power, zeroes the counter and sets NO.
fn entered(phase: &Phase) -> Effects
    ensures { result ≡ entered phase.now }
{
    Effects {
        power: power_of(phase.nature),
        zero_counter: matches!(phase.nature, Nature::ZeroCounter),
        outputs: phase.outputs,
        ..Effects::default()
    }
}

impl Run {
    // The movement starts; a zero distance ends the phase.
    fn start_movement(
        self,
        phase: Phase,
        distance: Distance,
        constant: bool,
        here: &Surroundings,
    ) -> Outcome
        ensures { outcome result ≡ moves_by (program here.now) (moment here.now) (progress self) phase distance constant }
    {
        let effects = entered(&phase);
        match Movement::new(here.parameters, self.plateau, distance, constant) {
            Some(movement) => self.stay(effects, PhaseState::Moving(phase, movement)),
            None => self.end_phase(effects, phase, here),
        }
    }

    // By its nature the phase goes on or ends in this tick.
    fn start(mut self, phase: Phase, here: &Surroundings) -> Outcome
        ensures { outcome result ≡ starts (program here.now) (moment here.now) (progress self) phase phase.nature }
    {
        let (distance, constant) = match phase.nature {
            Nature::Relative => (distance_of(&phase), false),
            Nature::ConstantSpeed => (distance_of(&phase), true),
            Nature::Absolute => (Distance::to(phase.set_point, here.counter), false),
            Nature::Origin => (Distance::to(0, here.counter), false),
            Nature::Wait => {
                let ticks = TICKS_PER_MS * u64::from(phase.set_point.unsigned_abs());
                return self.stay(entered(&phase), PhaseState::Waiting(phase, ticks));
            }
            Nature::PlateauSpeed => {
                self.plateau = Speed::of_set_point(phase.set_point);
                return self.end_phase(entered(&phase), phase, here);
            }
            _ => return self.end_phase(entered(&phase), phase, here),
        };
        self.start_movement(phase, distance, constant, here)
    }

    // Where no written phase stands, the latest open sub-sequence returns, and without one the run is over.
    pub(crate) fn enter(self, here: &Surroundings) -> Outcome
        ensures { outcome result ≡ enters (program here.now) (moment here.now) (progress self) (phase_at (program here.now) self.at) }
    {
        match here.phase_at(self.at) {
            Some(phase) => self.start(phase, here),
            None => Outcome {
                effects: Effects::default(),
                rest: self.return_or_end(),
            },
        }
    }
}
