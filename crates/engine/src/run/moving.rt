//! A tick of a movement or of a wait, and the slow stop.
ghost use Rattle.std.specs.Prelude.{◌≡◌};
ghost use Rattle.motion.specs.Motions.{motion, tick_rest};
ghost use Rattle.engine.specs.Progress.{progress, progress_left, outcome};
ghost use Rattle.engine.specs.Surroundings.{program, moment};
ghost use Rattle.engine.specs.Ticks.{moved, waited, stopped_run};

use super::{PhaseState, Run};
use crate::effects::Effects;
use crate::outcome::Outcome;
use crate::surroundings::Surroundings;
use motion::Movement;
use phases::Phase;

impl Run {
    // After GE the end of the movement ends the run.
    pub(crate) fn move_on(self, phase: Phase, movement: Movement, here: &Surroundings) -> Outcome
        ensures { outcome result ≡ moved (program here.now) (moment here.now) (progress self) phase (motion movement) (tick_rest (motion movement)) }
    {
        let (step, rest) = movement.tick();
        let effects = Effects {
            step,
            ..Effects::default()
        };
        match rest {
            Some(rest) => self.stay(effects, PhaseState::Moving(phase, rest)),
            None if movement.is_stopping() => Outcome {
                effects,
                rest: None,
            },
            None => self.end_phase(effects, phase, here),
        }
    }

    pub(crate) fn wait_on(self, phase: Phase, ticks: u64, here: &Surroundings) -> Outcome
        ensures { outcome result ≡ waited (program here.now) (moment here.now) (progress self) phase ticks }
    {
        if ticks <= 1 {
            return self.end_phase(Effects::default(), phase, here);
        }
        self.stay(Effects::default(), PhaseState::Waiting(phase, ticks - 1))
    }

    // GE: the run if its movement goes on.
    pub(crate) fn slow_stop(self) -> Option<Run>
        ensures { progress_left result ≡ stopped_run (progress self) (progress self).state }
    {
        let PhaseState::Moving(phase, movement) = self.state else {
            return None;
        };
        let rest = movement.stop()?;
        Some(Run {
            state: PhaseState::Moving(phase, rest),
            ..self
        })
    }
}
