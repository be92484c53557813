//! The section of a script that plays on one module: its lines, and the calls that they make.
ghost use Rattle.std.specs.Prelude.{◌≡◌, ◌+◌, ◌≤◌, [], ◌∷◌, ◌++◌, length, map, Some, Ok, Err, OnOk, if◌then◌else◌, nat_le};
ghost use Rattle.scripts.specs.declared.expected.Expected.TheVariants.{FewerCalls};
ghost use Rattle.scripts.specs.Asked.{asked};
ghost use Rattle.scripts.specs.Asked.Asked.{sends, types, calls, ticks};
ghost use Rattle.scripts.specs.Calls.{typed};
ghost use Rattle.scripts.specs.Reading.{lending};
ghost use Rattle.scripts.specs.Playing.{new_module};
ghost use Rattle.scripts.specs.Playing.Going.{going};
ghost use Rattle.scripts.specs.Scripts.{GoesOnly, going_of};
ghost use Rattle.scripts.specs.Sections.{IsWhole, Takes, Taken, section_told};

use crate::expected::{Expected, MOST_CALLS};
use crate::line_error::LineError;
use crate::step::Step;
use history::{Action, Call, Character};
use programs::Output;
use replies::REPLY_ROOM;
use std::alloc::{AllocError, Global};
use store::RECORDS;

const LINE_END: &[u8] = b"\r";

// A call that is lent the whole memory.
pub(crate) fn with_records(action: Action) -> Call
    ensures { result ≡ lending 414 action }
{
    Call {
        lent: RECORDS,
        action,
    }
}

// What is told under a line: the answers of its calls, its ticks, the fault record, or what the module is then.
#[derive(Clone, Copy)]
pub(crate) enum LineKind {
    Calls,
    Ticks,
    Fault,
    State,
}

// A line of the script and how many calls have been made with it.
#[derive(Clone, Copy)]
pub(crate) struct Entry<'a> {
    pub line: &'a [u8],
    pub kind: LineKind,
    pub reached: usize,
}

// The lines of the section, and the calls of all of them in order.
#[derive(Drop)]
pub(crate) struct Section<'a> {
    pub heap: Global,
    pub output: Output,
    pub address: u8,
    pub entries: Vec<Entry<'a>>,
    pub calls: Vec<Call>,
}

impl<'a> Section<'a> {
    pub(crate) fn new(heap: Global, output: Output, address: u8) -> Section<'a>
        ensures going { going_of (Some result) ≡ going output 0 (new_module output address) }
        ensures told { section_told result ≡ [] }
        ensures whole { address ≤ 63 → IsWhole result }
    {
        Section {
            heap,
            output,
            address,
            entries: Vec::new(heap),
            calls: Vec::new(heap),
        }
    }

    // Refuses calls beyond the most that a module takes.
    fn check_room(&self, count: usize) -> Result<(), Expected>
        requires { length self.now.calls.items ≤ 20000000 }
        ensures { result ≡ (if nat_le (length self.now.calls.items + count) 20000000 then Ok tt else Err FewerCalls) }
    {
        if count > MOST_CALLS.saturating_sub(self.calls.len()) {
            return Err(Expected::FewerCalls);
        }
        Ok(())
    }

    // Ends a line of the script.
    fn note(&mut self, line: &'a [u8], kind: LineKind) -> Result<(), AllocError>
        ensures { OnOk result (Takes line.now kind [] self.old self.new) }
    {
        let reached = self.calls.len();
        self.entries.push(Entry {
            line,
            kind,
            reached,
        })?;
        Ok(())
    }

    fn call(&mut self, call: Call) -> Result<(), AllocError>
        ensures rest { OnOk result (self.new ≡ record self.old { calls = self.new.calls }) }
        ensures calls { OnOk result (self.new.calls.items ≡ self.old.calls.items ++ call ∷ []) }
    {
        self.calls.push(call)?;
        Ok(())
    }

    fn characters(&mut self, text: &[u8]) -> Result<(), AllocError>
        ensures rest { OnOk result (self.new ≡ record self.old { calls = self.new.calls }) }
        ensures calls { OnOk result (self.new.calls.items ≡ self.old.calls.items ++ map typed text.now) }
    {
        for byte in text {
            self.call(with_records(Action::Character {
                character: Character {
                    byte: *byte,
                    damaged: false,
                },
                room: REPLY_ROOM,
            }))?;
        }
        Ok(())
    }

    // A line of characters alone.
    fn type_text(&mut self, line: &'a [u8], text: &[u8]) -> Result<(), LineError>
        requires { length self.old.calls.items ≤ 20000000 }
        ensures { Taken line.now (types text.now) self.old self.new result }
    {
        self.check_room(text.len())?;
        self.characters(text)?;
        Ok(self.note(line, LineKind::Calls)?)
    }

    // A line of characters and 0Dh.
    fn send(&mut self, line: &'a [u8], text: &[u8]) -> Result<(), LineError>
        requires { length self.old.calls.items ≤ 20000000 }
        ensures { Taken line.now (sends text.now) self.old self.new result }
    {
        self.check_room(text.len().saturating_add(1))?;
        self.characters(text)?;
        self.characters(LINE_END)?;
        Ok(self.note(line, LineKind::Calls)?)
    }

    // A line of one call.
    fn once(&mut self, line: &'a [u8], call: Call) -> Result<(), LineError>
        requires { length self.old.calls.items ≤ 20000000 }
        ensures { Taken line.now (calls call) self.old self.new result }
    {
        self.check_room(1)?;
        self.call(call)?;
        Ok(self.note(line, LineKind::Calls)?)
    }

    // A line of ticks.
    fn tick(&mut self, line: &'a [u8], count: usize) -> Result<(), LineError>
        requires { length self.old.calls.items ≤ 20000000 }
        ensures { Taken line.now (ticks count) self.old self.new result }
    {
        self.check_room(count)?;
        let reached = self.calls.len().saturating_add(count);
        self.calls.resize(reached, with_records(Action::Tick))?;
        Ok(self.note(line, LineKind::Ticks)?)
    }

    // A line that the module goes on with.
    pub(crate) fn take(&mut self, line: &'a [u8], step: Step<'_>) -> Result<(), LineError>
        requires few { length self.old.calls.items ≤ 20000000 }
        requires step { GoesOnly (asked step) }
        ensures { Taken line.now (asked step.entry) self.old self.new result }
    {
        match step {
            Step::Module { .. } => unreachable!(),
            Step::Send(text) => self.send(line, text),
            Step::Type(text) => self.type_text(line, text),
            Step::Once(call) => self.once(line, call),
            Step::Ticks(count) => self.tick(line, count),
            Step::Fault => Ok(self.note(line, LineKind::Fault)?),
            Step::State => Ok(self.note(line, LineKind::State)?),
        }
    }
}
