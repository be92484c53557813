//! A run of a sequence: the phase that it is at, and what goes on there.
ghost use Rattle.std.specs.Prelude.{◌≡◌, length};
ghost use Rattle.engine.specs.Progress.{progress, outcome, state_of, stays, upcoming};

use crate::effects::Effects;
use crate::outcome::Outcome;
use crate::returns::Returns;
use motion::{Movement, Speed};
use phases::{Phase, Position};

mod entering;
mod leaving;
mod moving;
mod ticks;

/// The state of a run's phase: it is to be entered, its movement goes on, or its wait goes on for that many ticks.
#[derive(Clone, Copy)]
pub enum PhaseState {
    Entering,
    Moving(Phase, Movement),
    Waiting(Phase, u64),
}

/// A run that goes on: its phase and the state of it, the plateau speed set by NC, and where its open sub-sequences return to.
#[derive(Clone, Copy)]
pub struct Run {
    at: Position,
    state: PhaseState,
    // the plateau set by NC
    plateau: Option<Speed>,
    returns: Returns,
}

impl Run {
    /// The phase that the next tick enters; none while a movement or a wait goes on.
    pub fn upcoming(&self) -> Option<Position>
        ensures { result ≡ upcoming (progress self.now) }
    {
        match self.state {
            PhaseState::Entering => Some(self.at),
            PhaseState::Moving(..) | PhaseState::Waiting(..) => None,
        }
    }

    /// How many sub-sequences are open, at most four: as many ends of a sequence return before one ends the run.
    pub fn open_sub_sequences(&self) -> usize
        ensures { result ≡ length (progress self.now).returns }
    {
        self.returns.depth()
    }

    // The run stays at its phase, in that state.
    fn stay(self, effects: Effects, state: PhaseState) -> Outcome
        ensures { outcome result ≡ stays (progress self) effects (state_of state) }
    {
        let run = Run { state, ..self };
        Outcome {
            effects,
            rest: Some(run),
        }
    }
}
