//! Histories of modules over each step output.
ghost use Rattle.std.specs.Prelude.{◌≡◌, true, length, map, take, drop};
ghost use Rattle.outputs.specs.Meaning.{initial};
ghost use Rattle.history.specs.Histories.{started, shown, acceptable};
ghost use Rattle.scripts.specs.Playing.{cycle_of, after_calls, answers_to};
ghost use Rattle.scripts.specs.Snapshots.{IsSnapshot};

use crate::snapshot::{ShownOutput, Snapshot};
use faults::Fault;
use history::{Answer, Call, history};
use outputs::{DryRunOutput, FullStepCoils, HalfStepCoils, PulseOutput};
use phases::Phase;
use programs::Output;

// The history of a module: its address, and its calls from new.
#[derive(Clone, Copy)]
pub(crate) struct History<'a> {
    pub address: u8,
    pub calls: &'a [Call],
}

impl History<'_> {
    // Plays the history over this output.
    fn play_over<O: ShownOutput + Drop>(
        self,
        output: O,
        memory: &mut [Phase],
        answers: &mut [Result<Answer, Fault>],
    ) -> Snapshot
        requires { acceptable self.address (length memory.old) (length self.calls.now) (length answers.old) ≡ true }
        ensures shot { IsSnapshot O.StepOutput.CYCLE (after_calls O.StepOutput.CYCLE self.entry.calls.now (started O.StepOutput.CYCLE self.entry.address (O.StepOutput.meaning output) memory.old)) result }
        ensures answers { map shown (take (length self.entry.calls.now) answers.new) ≡ answers_to O.StepOutput.CYCLE self.entry.calls.now (started O.StepOutput.CYCLE self.entry.address (O.StepOutput.meaning output) memory.old) }
        ensures beyond { drop (length self.entry.calls.now) answers.new ≡ drop (length self.entry.calls.now) answers.old }
    {
        let module = history(output, self.address, self.calls, memory, answers).unwrap();
        Snapshot::from(&module)
    }

    // Plays the history, and answers what the module is then.
    pub(crate) fn play(
        self,
        output: Output,
        memory: &mut [Phase],
        answers: &mut [Result<Answer, Fault>],
    ) -> Snapshot
        requires { acceptable self.address (length memory.old) (length self.calls.now) (length answers.old) ≡ true }
        ensures shot { IsSnapshot (cycle_of output) (after_calls (cycle_of output) self.entry.calls.now (started (cycle_of output) self.entry.address initial memory.old)) result }
        ensures answers { map shown (take (length self.entry.calls.now) answers.new) ≡ answers_to (cycle_of output) self.entry.calls.now (started (cycle_of output) self.entry.address initial memory.old) }
        ensures beyond { drop (length self.entry.calls.now) answers.new ≡ drop (length self.entry.calls.now) answers.old }
    {
        match output {
            Output::Full => self.play_over(FullStepCoils::new(), memory, answers),
            Output::Half => self.play_over(HalfStepCoils::new(), memory, answers),
            Output::Pulse => self.play_over(PulseOutput::new(), memory, answers),
            Output::Dry => self.play_over(DryRunOutput::new(), memory, answers),
        }
    }
}
