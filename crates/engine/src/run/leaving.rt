//! A phase is over: NE decides whether its link or its NS counts, or the phase that follows it.
ghost use Rattle.std.specs.Prelude.{◌≡◌};
ghost use Rattle.store.specs.Directories.{sequences};
ghost use Rattle.engine.specs.Progress.{progress, progress_left, progress_result, outcome};
ghost use Rattle.engine.specs.Surroundings.{program, moment};
ghost use Rattle.engine.specs.Leaving.{agrees, found_first, goes_on, linked, leaves, returns_from, phase_ended};

use super::{PhaseState, Run};
use crate::effects::Effects;
use crate::fault::run_fault;
use crate::outcome::Outcome;
use crate::position::{first_of, following, next_of};
use crate::surroundings::Surroundings;
use faults::{Cause, Fault};
use phases::{Link, Phase, Position};
use store::Directory;

// Whether every 0 and 1 of NE agrees with the levels.
fn agrees(phase: &Phase, levels: u8) -> bool
    ensures { result ≡ agrees phase.now levels }
{
    (levels ^ phase.inputs.levels) & phase.inputs.named == 0
}

// Phase 1 of a linked sequence.
fn first_phase(number: u8, directory: &Directory) -> Result<Position, Fault>
    ensures { result ≡ found_first (sequences directory.now) number }
{
    directory.find(number).ok_or(run_fault(Cause::NoSequence))?;
    Ok(first_of(number))
}

impl Run {
    // The run, to enter that phase in the next tick.
    fn go_on(self, next: Option<Position>) -> Option<Run>
        ensures { progress_left result ≡ goes_on (progress self) next }
    {
        Some(Run {
            at: next?,
            state: PhaseState::Entering,
            ..self
        })
    }

    // A link leads to the first phase of its sequence; a phase without one goes on with `next`.
    fn link(
        mut self,
        next: Option<Position>,
        link: Option<Link<u8>>,
        directory: &Directory,
    ) -> Result<Option<Run>, Fault>
        ensures { progress_result result ≡ linked (sequences directory.now) (progress self) next link }
    {
        match link {
            None => Ok(self.go_on(next)),
            Some(Link::Sequence(number)) => {
                let first = first_phase(number, directory)?;
                Ok(self.go_on(Some(first)))
            }
            Some(Link::SubSequence(number)) => {
                let first = first_phase(number, directory)?;
                self.returns.push(next)?;
                Ok(self.go_on(Some(first)))
            }
        }
    }

    // Where the run goes when its phase has ended.
    fn leave(self, phase: Phase, here: &Surroundings) -> Result<Option<Run>, Fault>
        ensures { progress_result result ≡ leaves (program here.now) (moment here.now) (progress self) phase }
    {
        if agrees(&phase, here.levels) {
            self.link(next_of(self.at, phase.next), phase.link, here.directory)
        } else {
            Ok(self.go_on(Some(following(self.at))))
        }
    }

    // The phase has ended, and with a fault the run as well.
    pub(crate) fn end_phase(self, effects: Effects, phase: Phase, here: &Surroundings) -> Outcome
        ensures { outcome result ≡ phase_ended effects (leaves (program here.now) (moment here.now) (progress self) phase) }
    {
        match self.leave(phase, here) {
            Ok(rest) => Outcome { effects, rest },
            Err(fault) => Outcome {
                effects: Effects {
                    fault: Some(fault),
                    ..effects
                },
                rest: None,
            },
        }
    }

    // The latest open sub-sequence returns; without one the run ends.
    pub(crate) fn return_or_end(mut self) -> Option<Run>
        ensures { progress_left result ≡ returns_from (progress self) (progress self).returns }
    {
        let next = self.returns.pop()?;
        self.go_on(next)
    }
}
