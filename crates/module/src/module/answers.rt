//! The replies to own lines that are accepted.
ghost use Rattle.std.specs.Prelude.{◌≡◌, ◌≤◌, List, length};
ghost use Rattle.law.specs.Machine.{reply_text};
ghost use Rattle.phases.specs.declared.phase.Phase.{Phase as Record};
ghost use Rattle.module.specs.Lines.{reply_of};
ghost use Rattle.module.specs.Machine.{machine};
ghost use Rattle.module.specs.Views.{module_in, sent};

use super::Module;
use control::Answer;
use faults::Fault;
use outputs::StepOutput;
use questions::{acknowledge, answer_fault, answer_parameters, answer_position, answer_version};
use texts::answer_rs;

impl<O: StepOutput> Module<O> {
    // Writes the reply; `fault` is the fault record as it was before the line.
    pub(crate) fn reply(
        &self,
        answer: Answer,
        fault: Option<Fault>,
        out: &mut [u8],
    ) -> Result<usize, Fault>
        requires { 80 ≤ length out.old }
        ensures { (records : List Record) → (result, out.new) ≡ sent (reply_text (machine O.CYCLE) (module_in self.now records) fault (reply_of O.CYCLE (module_in self.now records) answer)) out.old }
    {
        let control = &self.control;
        let address = control.address;
        match answer {
            Answer::Accepted => acknowledge(out),
            Answer::Phase { at, record } => answer_rs(&record, out, address, at),
            Answer::Parameters => answer_parameters(out, address, &control.settings),
            Answer::Position => {
                let counter = self.axis.counter();
                answer_position(out, address, counter, control.levels, control.outputs)
            }
            Answer::Version => answer_version(out, address, O::CYCLE),
            Answer::Fault => answer_fault(out, address, fault),
        }
    }
}
