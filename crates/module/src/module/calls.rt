//! The calls of the module.
ghost use Rattle.std.specs.Prelude.{◌≡◌, ◌≤◌, List, [], length, drop, is_ok, if◌then◌else◌, None, Ok};
ghost use Rattle.lines.specs.Addresses.{address_answer};
ghost use Rattle.lines.specs.Lines.{kept, kept_of};
ghost use Rattle.phases.specs.declared.phase.Phase.{Phase as Record};
ghost use Rattle.law.specs.Events.{handed, with_room, received as arrived};
ghost use Rattle.law.specs.Events.Answer.{ticked};
ghost use Rattle.law.specs.Events.Event.{tick as ticking, levels as levelling, power_up as powering};
ghost use Rattle.module.specs.States.{step_due};
ghost use Rattle.module.specs.Views.{module_in, state_in, state_after, answer_to, new_state, addressed, character_reply, sent, reply_shown, tick_shown, plain_shown, reply_length};

use super::Module;
use crate::effects::{affect, change};
use axis::Axis;
use control::Control;
use faults::Fault;
use lines::{Character, Receiver, check_address};
use outputs::StepOutput;
use phases::Phase;
use replies::check_room;
use steps::Direction;
use store::check_memory;

impl<O: StepOutput> Module<O> {
    /// A new module over an output: its power is cut, its place stays.
    pub fn new(output: O) -> Module<O>
        ensures state { (records : List Record) → module_in result records ≡ new_state (O.meaning output) records }
        ensures fault { result.fault ≡ None }
        ensures line { kept result.receiver.line ≡ kept_of [] }
    {
        Module {
            receiver: Receiver::new(),
            fault: None,
            control: Control::new(),
            axis: Axis::new(output),
        }
    }

    /// Sets the address, 0 to 63, and drops an unfinished line.
    pub fn set_address(&mut self, address: u8) -> Result<(), Fault>
        ensures answer { result ≡ address_answer address }
        ensures state { (records : List Record) → module_in self.new records ≡ (if is_ok result then addressed (module_in self.old records) address else module_in self.old records) }
        ensures fault { self.new.fault ≡ self.old.fault }
        ensures line { kept self.new.receiver.line ≡ (if is_ok result then kept_of [] else kept self.old.receiver.line) }
    {
        check_address(address)?;
        self.control.set_address(address);
        self.receiver = Receiver::new();
        Ok(())
    }

    // A character that is received.
    fn receive(
        &mut self,
        character: Character,
        records: &mut [Phase],
        out: &mut [u8],
    ) -> Result<usize, Fault>
        requires length { length records.old ≡ 414 }
        requires room { 80 ≤ length out.old }
        ensures state { state_in O.CYCLE self.new records.new ≡ state_after O.CYCLE self.old records.old (arrived character.byte character.damaged) }
        ensures reply { (result, out.new) ≡ sent (character_reply O.CYCLE self.old records.old (arrived character.byte character.damaged)) out.old }
    {
        match self.receiver.receive(character) {
            Some(line) => self.finish(&line, records, out),
            None => Ok(0),
        }
    }

    /// Takes a character, and answers the length of the reply in `out`, which stays beyond it.
    pub fn character(
        &mut self,
        character: Character,
        records: &mut [Phase],
        out: &mut [u8],
    ) -> Result<usize, Fault>
        ensures state { state_in O.CYCLE self.new records.new ≡ state_after O.CYCLE self.old records.old (handed (length records.old) (with_room (length out.old) (arrived character.byte character.damaged))) }
        ensures answer { reply_shown result out.new ≡ answer_to O.CYCLE self.old records.old (handed (length records.old) (with_room (length out.old) (arrived character.byte character.damaged))) }
        ensures within { reply_length result ≤ length out.new }
        ensures beyond { drop (reply_length result) out.new ≡ drop (reply_length result) out.old }
    {
        check_memory(records)?;
        check_room(out)?;
        self.receive(character, records, out)
    }

    // What a tick does: the step made, and whether the module is still busy.
    #[tactic(auto, unfolding(crate::specs::States::ticked_state))]
    fn pass_tick(&mut self, records: &[Phase]) -> (Option<Direction>, bool)
        ensures state { state_in O.CYCLE self.new records.now ≡ state_after O.CYCLE self.old records.now ticking }
        ensures answer { ticked (step_due result.0) result.1 ≡ answer_to O.CYCLE self.old records.now ticking }
    {
        let effects = self.control.tick(records, self.axis.counter());
        let made = affect(&mut self.axis, &effects);
        self.fault = effects.fault.or(self.fault);
        (made, self.control.busy())
    }

    /// One tick of 1/40,000 s: the step made, as a number that can be added to a place, and whether the module is still busy.
    pub fn tick(&mut self, records: &[Phase]) -> Result<(i8, bool), Fault>
        ensures state { state_in O.CYCLE self.new records.now ≡ state_after O.CYCLE self.old records.now (handed (length records.now) ticking) }
        ensures answer { tick_shown result ≡ answer_to O.CYCLE self.old records.now (handed (length records.now) ticking) }
    {
        check_memory(records)?;
        let (made, busy) = self.pass_tick(records);
        Ok((made.map_or(0, |direction| direction.one_step()), busy))
    }

    /// The levels of the inputs.
    pub fn set_levels(&mut self, levels: u8, records: &[Phase]) -> Result<(), Fault>
        ensures state { state_in O.CYCLE self.new records.now ≡ state_after O.CYCLE self.old records.now (handed (length records.now) (levelling levels)) }
        ensures answer { plain_shown result ≡ answer_to O.CYCLE self.old records.now (handed (length records.now) (levelling levels)) }
    {
        check_memory(records)?;
        self.control.set_levels(levels);
        Ok(())
    }

    /// Power-up drops an unfinished line, clears the fault and starts the chosen sequence.
    pub fn power_up(&mut self, records: &[Phase]) -> Result<(), Fault>
        ensures state { state_in O.CYCLE self.new records.now ≡ state_after O.CYCLE self.old records.now (handed (length records.now) powering) }
        ensures answer { plain_shown result ≡ answer_to O.CYCLE self.old records.now (handed (length records.now) powering) }
    {
        check_memory(records)?;
        let made = self.control.restart();
        change(&mut self.axis, made);
        self.fault = None;
        self.receiver = Receiver::new();
        Ok(())
    }
}
