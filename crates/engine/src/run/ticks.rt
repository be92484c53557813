//! A run from its start to its end.
ghost use Rattle.std.specs.Prelude.{◌≡◌};
ghost use Rattle.engine.specs.Progress.{progress, progress_left, outcome};
ghost use Rattle.engine.specs.Surroundings.{program, moment};
ghost use Rattle.engine.specs.Ticks.{started, state_tick, tick, slow_stop};
ghost use Rattle.engine.specs.Laws.{RunsInSequences, PowerKept, StopsInTime, EntersNoMore};
ghost use Rattle.engine.specs.Rules.{GoesByTheRules, PlateauLasts, step_of};

use super::{PhaseState, Run};
use crate::effects::Effects;
use crate::outcome::Outcome;
use crate::position::first_of;
use crate::returns::Returns;
use crate::surroundings::Surroundings;

impl Run {
    /// Starts a sequence: its phase 1 is entered in the next tick.
    #[tactic(auto, using(crate::proofs::Sequences::within_of))]
    pub fn new(sequence: u8) -> Run
        ensures started { progress result ≡ started sequence }
        ensures within { RunsInSequences sequence (progress result) }
    {
        Run {
            at: first_of(sequence),
            state: PhaseState::Entering,
            plateau: None,
            returns: Returns::new(),
        }
    }

    // The tick enters the phase, or its movement or wait goes on.
    fn advance(self, here: &Surroundings) -> Outcome
        ensures { outcome result ≡ state_tick (program here.now) (moment here.now) (progress self) (progress self).state }
    {
        match self.state {
            PhaseState::Entering => self.enter(here),
            PhaseState::Moving(phase, movement) => self.move_on(phase, movement, here),
            PhaseState::Waiting(phase, ticks) => self.wait_on(phase, ticks, here),
        }
    }

    /// One tick: what is to be done, and the run if it goes on. A memory of other than 414 records has no written phase.
    pub fn tick(self, here: &Surroundings) -> Outcome
        ensures outcome { outcome result ≡ tick (program here.now) (moment here.now) (progress self) }
        ensures next { GoesByTheRules (program here.now) (moment here.now) (progress self) (outcome result) }
        ensures step { result.effects.step ≡ step_of (progress self).state }
        ensures plateau { PlateauLasts (program here.now) (progress self) (outcome result) }
        ensures power { PowerKept (progress self) result.effects (progress_left result.rest) }
    {
        self.advance(here)
    }

    /// GE, the slow stop: the run if its movement goes on. It ends with the movement, and at once where none goes on.
    pub fn stop(self) -> Option<Run>
        ensures rest { progress_left result ≡ slow_stop (progress self) }
        ensures stays { EntersNoMore (progress self).at (progress_left result) }
        ensures ends { StopsInTime (progress self).state (progress_left result) }
    {
        self.slow_stop()
    }
}
