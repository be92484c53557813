//! What a host does: it makes a module, sends characters and lines, and lets time pass.
ghost use Rattle.std.specs.Prelude.{◌≡◌, false, is_ok, if◌then◌else◌, nat_le, IfOk, IfErr};
ghost use Rattle.law.specs.Events.{received as arrived};
ghost use Rattle.law.specs.Events.Event.{tick as ticking};
ghost use Rattle.law.specs.Events.Answer.{reply as replied, ticked};
ghost use Rattle.history.specs.Histories.{started as begun, told};
ghost use Rattle.lines.specs.Addresses.{address_answer};
ghost use Rattle.lines.specs.Lines.{kept};
ghost use Rattle.module.specs.Lines.{judged_line};
ghost use Rattle.history.specs.Hosts.{state_of, next_of, answer_of, set_anew, after_line, reply_to, after_own, own_reply, phase_in};

use super::Host;
use crate::answer::Reply;
use faults::Fault;
use lines::{Character, Line, check_address};
use module::Module;
use orders::Judgement;
use outputs::StepOutput;
use phases::{Phase, Position};
use replies::{REPLY_ROOM, two_digits};
use store::RECORDS;

const LINE_END: u8 = 0x0D;

impl<O: StepOutput> Host<O> {
    /// A new module over the output, set to the address, with this memory. The output comes back where the address is above 63.
    pub fn new(output: O, address: u8, memory: [Phase; RECORDS]) -> Result<Host<O>, O>
        ensures taken { is_ok result ≡ nat_le address 63 }
        ensures refused { IfErr result (λ o. o ≡ output) }
        ensures state { IfOk result (λ h. state_of O.CYCLE h ≡ begun O.CYCLE address (O.meaning output) memory) }
    {
        if check_address(address).is_err() {
            return Err(output);
        }
        let mut module = Module::new(output);
        module.set_address(address).unwrap();
        Ok(Host { module, memory })
    }

    /// Sets the module's address anew, which drops its unfinished line.
    pub fn set_address(&mut self, address: u8) -> Result<(), Fault>
        ensures answer { result ≡ address_answer address }
        ensures state { state_of O.CYCLE self.new ≡ (if is_ok result then set_anew O.CYCLE address (state_of O.CYCLE self.old) else state_of O.CYCLE self.old) }
    {
        self.module.set_address(address)
    }

    /// Sends an undamaged character, and takes the reply.
    pub fn character(&mut self, byte: u8) -> Reply
        ensures state { state_of O.CYCLE self.new ≡ next_of O.CYCLE self.old (arrived byte false) }
        ensures reply { replied (told result) ≡ answer_of O.CYCLE self.old (arrived byte false) }
    {
        let character = Character {
            byte,
            damaged: false,
        };
        let mut bytes = [0u8; REPLY_ROOM];
        let length = self
            .module
            .character(character, &mut self.memory, &mut bytes)
            .unwrap();
        Reply { length, bytes }
    }

    /// Sends a line and its 0Dh, and takes the reply to that.
    pub fn send(&mut self, text: &[u8]) -> Reply
        ensures state { state_of O.CYCLE self.new ≡ after_line O.CYCLE text.now (state_of O.CYCLE self.old) }
        ensures reply { replied (told result) ≡ reply_to O.CYCLE text.now (state_of O.CYCLE self.old) }
    {
        for byte in text {
            let _ = self.character(*byte);
        }
        self.character(LINE_END)
    }

    /// Sends a line for the module itself: the two digits of its address, then the text.
    #[tactic(auto, unfolding(replies::specs::Replies::digits_of))]
    pub fn send_own(&mut self, text: &[u8]) -> Reply
        ensures state { state_of O.CYCLE self.new ≡ after_own O.CYCLE text.now (state_of O.CYCLE self.old) }
        ensures reply { replied (told result) ≡ own_reply O.CYCLE text.now (state_of O.CYCLE self.old) }
    {
        let [tens, units] = two_digits(self.module.control().address);
        let _ = self.character(tens);
        let _ = self.character(units);
        self.send(text)
    }

    /// One tick: the step made, as a number, and whether the module is still busy.
    pub fn tick(&mut self) -> (i8, bool)
        ensures state { state_of O.CYCLE self.new ≡ next_of O.CYCLE self.old ticking }
        ensures answer { ticked result.0 result.1 ≡ answer_of O.CYCLE self.old ticking }
    {
        self.module.tick(&self.memory).unwrap()
    }

    /// Whom a line is for that ended now, and its order, or why the module would refuse it.
    pub fn judge(&self, line: &Line) -> Judgement
        ensures { result ≡ judged_line (state_of O.CYCLE self.now).core.rest (kept line.now) }
    {
        self.module.control().judge(line, &self.memory)
    }

    /// The module.
    pub fn module(&self) -> &Module<O>
        ensures { result.now ≡ self.now.module }
    {
        &self.module
    }

    /// The written phase at a position, if there is one.
    pub fn phase_at(&self, at: Position) -> Option<Phase>
        ensures { result ≡ phase_in O.CYCLE (state_of O.CYCLE self.now) at }
    {
        let directory = &self.module.control().directory;
        directory.phase_at(&self.memory, at)
    }
}
