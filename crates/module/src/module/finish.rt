//! A finished line: judged, carried out and answered.
ghost use Rattle.std.specs.Prelude.{◌≡◌, ◌≤◌, cond, length, None};
ghost use Rattle.lines.specs.Lines.{kept};
ghost use Rattle.orders.specs.Judged.{Shown};
ghost use Rattle.control.specs.States.{state, situation, store_of};
ghost use Rattle.module.specs.States.{order_done, obeyed_state};
ghost use Rattle.module.specs.Lines.{line_outcome};
ghost use Rattle.module.specs.Views.{module_in, core_in, done_in, sent};

use super::Module;
use crate::effects::change;
use control::{Answer, Change};
use faults::Fault;
use lines::Line;
use orders::{Judgement, Order};
use outputs::StepOutput;
use phases::Phase;
use questions::refuse;

impl<O: StepOutput> Module<O> {
    // Carries out an order that is accepted.
    #[tactic(auto, unfolding(crate::specs::States::obeyed_state))]
    fn obey(&mut self, order: Order, records: &mut [Phase]) -> Change
        requires length { length records.old ≡ 414 }
        requires shown { Shown (situation (state self.old.control)) (store_of (state self.old.control) records.old) order }
        ensures change { result ≡ (order_done (module_in self.old records.old) order).change }
        ensures state { module_in self.new records.new ≡ obeyed_state (module_in self.old records.old) order }
        ensures fault { self.new.fault ≡ self.old.fault }
        ensures receiver { self.new.receiver ≡ self.old.receiver }
    {
        let made = self.control.obey(order, records, self.axis.counter());
        change(&mut self.axis, made);
        made
    }

    // Carries out an order that is accepted, and answers how the line is to be answered; the fault record is cleared where the order
    // says so.
    fn accept(&mut self, order: Order, records: &mut [Phase]) -> Answer
        requires length { length records.old ≡ 414 }
        requires shown { Shown (situation (state self.old.control)) (store_of (state self.old.control) records.old) order }
        ensures answer { result ≡ (order_done (module_in self.old records.old) order).change.answer }
        ensures state { module_in self.new records.new ≡ obeyed_state (module_in self.old records.old) order }
        ensures fault { self.new.fault ≡ cond (order_done (module_in self.old records.old) order).change.clears_fault None self.old.fault }
        ensures receiver { self.new.receiver ≡ self.old.receiver }
    {
        let made = self.obey(order, records);
        if made.clears_fault {
            self.fault = None;
        }
        made.answer
    }

    // A finished line.
    #[tactic(auto, unfolding(crate::specs::Lines::line_outcome))]
    pub(crate) fn finish(
        &mut self,
        line: &Line,
        records: &mut [Phase],
        out: &mut [u8],
    ) -> Result<usize, Fault>
        requires length { length records.old ≡ 414 }
        requires room { 80 ≤ length out.old }
        ensures core { core_in O.CYCLE self.new records.new ≡ (done_in O.CYCLE self.old records.old (line_outcome O.CYCLE (module_in self.old records.old) (kept line.now))).0 }
        ensures reply { (result, out.new) ≡ sent (done_in O.CYCLE self.old records.old (line_outcome O.CYCLE (module_in self.old records.old) (kept line.now))).1 out.old }
        ensures receiver { self.new.receiver ≡ self.old.receiver }
    {
        let fault = self.fault;
        match self.control.judge(line, records) {
            Judgement::Own(Ok(order)) => {
                let answer = self.accept(order, records);
                self.reply(answer, fault, out)
            }
            Judgement::Own(Err(fault)) => {
                self.fault = Some(fault);
                refuse(out)
            }
            Judgement::Broadcast(Ok(order)) => {
                self.accept(order, records);
                Ok(0)
            }
            Judgement::Broadcast(Err(fault)) => {
                self.fault = Some(fault);
                Ok(0)
            }
            Judgement::Stranger => Ok(0),
        }
    }
}
