//! The transcript of a module's calls, under the lines that they come from.
ghost use Rattle.std.specs.Prelude.{◌≡◌, ◌+◌, ◌++◌, ◌-◌, ◌<◌, ◌≤◌, length, map, take, drop, replicate, IfOk, OnOk};
ghost use Rattle.phases.specs.Phases.{blank};
ghost use Rattle.law.specs.Events.{event};
ghost use Rattle.law.specs.Events.Answer.{ticked};
ghost use Rattle.history.specs.Histories.{shown};
ghost use Rattle.scripts.specs.Told.{Adds};
ghost use Rattle.scripts.specs.Playing.{cycle_of, answers_to, is_quiet, answer_told, busy_in, calls_told, under};
ghost use Rattle.scripts.specs.Playbacks.{IsPlayback, Answers, KnowsAfter, end_told};
ghost use Rattle.scripts.specs.Sections.{IsWhole, Reaches, start_of, after_first, section_told};
ghost use Rattle.scripts.specs.Snapshots.{IsSnapshot};

use crate::playing::History;
use crate::section::{LineKind, Section};
use crate::snapshot::ModuleState;
use crate::transcript::Transcript;
use faults::Fault;
use history::Answer;
use phases::Phase;
use std::alloc::{AllocError, Global};
use store::RECORDS;

// Whether a tick makes no step and leaves the module as busy as it was.
fn is_quiet(before: bool, step: i8, busy: bool) -> bool
    ensures { result ≡ is_quiet before step busy }
{
    step == 0 && busy == before
}

// A phase memory in which nothing is written.
fn blank_memory(heap: Global) -> Result<Vec<Phase>, AllocError>
    ensures { IfOk result (λ v. v.items ≡ replicate 414 blank) }
{
    vec![in heap; Phase::BLANK; RECORDS]
}

// Plays the first `count` calls of a section on a new module.
fn play_first(
    section: &Section<'_>,
    count: usize,
    answers: &mut [Result<Answer, Fault>],
) -> Result<ModuleState, AllocError>
    requires address { section.now.address ≤ 63 }
    requires count { count ≤ length section.now.calls.items }
    requires answers { count ≤ length answers.old }
    ensures shot { IfOk result (λ m. IsSnapshot (cycle_of section.now.output) (after_first section.now count) m.snapshot) }
    ensures answers { OnOk result (map shown (take count answers.new) ≡ answers_to (cycle_of section.now.output) (take count section.now.calls.items) (start_of section.now)) }
    ensures beyond { OnOk result (drop count answers.new ≡ drop count answers.old) }
{
    let mut memory = blank_memory(section.heap)?;
    let history = History {
        address: section.address,
        calls: &section.calls.as_slice()[..count],
    };
    let snapshot = history.play(section.output, memory.as_mut_slice(), answers);
    Ok(ModuleState { snapshot, memory })
}

// The answers of all calls of a section, how many of them have been told, and whether the module is busy then, where that is known.
#[derive(Drop)]
struct Playback<'a, 'b> {
    section: &'a Section<'b>,
    answers: Vec<Result<Answer, Fault>>,
    told: usize,
    busy: Option<bool>,
}

impl<'a, 'b> Playback<'a, 'b> {
    // Plays all calls of a section, of which none is told yet, and answers what the module is at their end.
    fn new(section: &'a Section<'b>) -> Result<(Playback<'a, 'b>, ModuleState), AllocError>
        requires { section.now.address ≤ 63 }
        ensures playback { IfOk result (λ r. IsPlayback section.now r.0) }
        ensures told { IfOk result (λ r. r.0.told ≡ 0) }
        ensures shot { IfOk result (λ r. IsSnapshot (cycle_of section.now.output) (after_first section.now (length section.now.calls.items)) r.1.snapshot) }
    {
        let count = section.calls.len();
        let mut answers = vec![in section.heap; Ok(Answer::Done); count]?;
        let end = play_first(section, count, answers.as_mut_slice())?;
        let playback = Playback {
            section,
            answers,
            told: 0,
            busy: Some(false),
        };
        Ok((playback, end))
    }

    // What the module is once the calls so far are made.
    fn state(&mut self) -> Result<ModuleState, AllocError>
        requires { IsPlayback self.old.section.now self.old }
        ensures rest { OnOk result (self.new ≡ record self.old { answers = self.new.answers }) }
        ensures playback { OnOk result (IsPlayback self.old.section.now self.new) }
        ensures shot { IfOk result (λ m. IsSnapshot (cycle_of self.old.section.now.output) (after_first self.old.section.now self.old.told) m.snapshot) }
    {
        play_first(self.section, self.told, self.answers.as_mut_slice())
    }

    // Whether the module is busy once the calls so far are made.
    fn busy_now(&mut self) -> Result<bool, AllocError>
        requires { IsPlayback self.old.section.now self.old }
        ensures rest { OnOk result (self.new ≡ record self.old { answers = self.new.answers }) }
        ensures playback { OnOk result (IsPlayback self.old.section.now self.new) }
        ensures busy { IfOk result (λ b. b ≡ busy_in (cycle_of self.old.section.now.output) (after_first self.old.section.now self.old.told)) }
    {
        match self.busy {
            Some(busy) => Ok(busy),
            None => Ok(self.state()?.snapshot.control.busy()),
        }
    }

    // Whether the module is busy before the next call, a tick that answers this step and this busy. A tick begins nothing, so the module
    // was busy if it is after the tick or makes a step.
    fn busy_before(&mut self, step: i8, busy: bool) -> Result<bool, AllocError>
        requires playback { IsPlayback self.old.section.now self.old }
        requires tick { Answers (cycle_of self.old.section.now.output) (after_first self.old.section.now self.old.told) (ticked step busy) }
        ensures rest { OnOk result (self.new ≡ record self.old { answers = self.new.answers }) }
        ensures playback { OnOk result (IsPlayback self.old.section.now self.new) }
        ensures busy { IfOk result (λ b. b ≡ busy_in (cycle_of self.old.section.now.output) (after_first self.old.section.now self.old.told)) }
    {
        if self.busy.is_none() && !is_quiet(false, step, busy) {
            return Ok(true);
        }
        self.busy_now()
    }

    // Tells an answer of the next call, which has this number in its line: a refusal, a reply, or a tick that is not quiet. Answers whether
    // the module is busy after the call, where that is known.
    fn tell_one(
        &mut self,
        number: usize,
        answer: &Result<Answer, Fault>,
        transcript: &mut Transcript,
    ) -> Result<Option<bool>, AllocError>
        requires playback { IsPlayback self.old.section.now self.old }
        requires answer { Answers (cycle_of self.old.section.now.output) (after_first self.old.section.now self.old.told) (shown answer.now) }
        ensures rest { OnOk result (self.new ≡ record self.old { answers = self.new.answers }) }
        ensures playback { OnOk result (IsPlayback self.old.section.now self.new) }
        ensures busy { IfOk result (KnowsAfter (cycle_of self.old.section.now.output) (after_first self.old.section.now self.old.told) (shown answer.now)) }
        ensures transcript { OnOk result (Adds (answer_told number (busy_in (cycle_of self.old.section.now.output) (after_first self.old.section.now self.old.told)) (shown answer.now)) transcript.old.bytes.items transcript.new.bytes.items) }
    {
        match answer {
            Err(fault) => {
                transcript.refused(*fault)?;
                Ok(self.busy)
            }
            Ok(Answer::Reply(reply)) => {
                transcript.reply(reply.text())?;
                Ok(None)
            }
            Ok(Answer::Ticked(step, busy)) => {
                let before = self.busy_before(*step, *busy)?;
                if !is_quiet(before, *step, *busy) {
                    transcript.tick(number, *step, *busy)?;
                }
                Ok(Some(*busy))
            }
            Ok(Answer::Done) => Ok(None),
        }
    }

    // Tells the answer of the next call, which has this number in its line.
    fn tell_answer(&mut self, number: usize, transcript: &mut Transcript) -> Result<(), AllocError>
        requires playback { IsPlayback self.old.section.now self.old }
        requires more { self.old.told < length self.old.section.now.calls.items }
        ensures section { OnOk result (self.new.section ≡ self.old.section) }
        ensures told { OnOk result (self.new.told ≡ self.old.told + 1) }
        ensures playback { OnOk result (IsPlayback self.old.section.now self.new) }
        ensures transcript { OnOk result (Adds (calls_told (cycle_of self.old.section.now.output) number (after_first self.old.section.now self.old.told) (map event (take 1 (drop self.old.told self.old.section.now.calls.items)))) transcript.old.bytes.items transcript.new.bytes.items) }
    {
        let answer = self.answers[self.told];
        self.busy = self.tell_one(number, &answer, transcript)?;
        self.told += 1;
        Ok(())
    }

    // Tells the answers of the next calls, those of one line.
    fn tell_answers(&mut self, count: usize, transcript: &mut Transcript) -> Result<(), AllocError>
        requires playback { IsPlayback self.old.section.now self.old }
        requires more { self.old.told + count ≤ length self.old.section.now.calls.items }
        ensures section { OnOk result (self.new.section ≡ self.old.section) }
        ensures told { OnOk result (self.new.told ≡ self.old.told + count) }
        ensures playback { OnOk result (IsPlayback self.old.section.now self.new) }
        ensures transcript { OnOk result (Adds (calls_told (cycle_of self.old.section.now.output) 1 (after_first self.old.section.now self.old.told) (map event (take count (drop self.old.told self.old.section.now.calls.items)))) transcript.old.bytes.items transcript.new.bytes.items) }
    {
        for i in 0..count {
            self.tell_answer(i + 1, transcript)?;
        }
        Ok(())
    }

    // Tells what came of a line of the script.
    fn tell_under(
        &mut self,
        kind: LineKind,
        reached: usize,
        transcript: &mut Transcript,
    ) -> Result<(), AllocError>
        requires playback { IsPlayback self.old.section.now self.old }
        requires reached { Reaches kind self.old.told reached }
        requires more { reached ≤ length self.old.section.now.calls.items }
        ensures section { OnOk result (self.new.section ≡ self.old.section) }
        ensures told { OnOk result (self.new.told ≡ reached) }
        ensures playback { OnOk result (IsPlayback self.old.section.now self.new) }
        ensures transcript { OnOk result (Adds (under (cycle_of self.old.section.now.output) kind (take (reached - self.old.told) (drop self.old.told self.old.section.now.calls.items)) (after_first self.old.section.now self.old.told)) transcript.old.bytes.items transcript.new.bytes.items) }
    {
        let count = reached - self.told;
        match kind {
            LineKind::Calls => self.tell_answers(count, transcript),
            LineKind::Ticks => {
                self.tell_answers(count, transcript)?;
                let busy = self.busy_now()?;
                transcript.after(count, busy)?;
                Ok(())
            }
            LineKind::Fault => {
                let state = self.state()?;
                transcript.fault(state.snapshot.fault)
            }
            LineKind::State => {
                let state = self.state()?;
                transcript.state(&state)?;
                Ok(())
            }
        }
    }
}

// Tells the end block of a section if the script ends it.
fn tell_end(
    section: &Section<'_>,
    ended: bool,
    end: &ModuleState,
    transcript: &mut Transcript,
) -> Result<(), AllocError>
    ensures { OnOk result (Adds (end_told ended section.now) transcript.old.bytes.items transcript.new.bytes.items) }
{
    if ended {
        return transcript.state(end);
    }
    Ok(())
}

// Tells all lines of a section, and at its end the end block if the script ends it.
pub(crate) fn tell_section(
    section: &Section<'_>,
    ended: bool,
    transcript: &mut Transcript,
) -> Result<(), AllocError>
    requires { IsWhole section.now }
    ensures { OnOk result (Adds (section_told section.now ++ end_told ended section.now) transcript.old.bytes.items transcript.new.bytes.items) }
{
    let (mut playback, end) = Playback::new(section)?;
    for entry in section.entries.as_slice() {
        transcript.echo(entry.line)?;
        playback.tell_under(entry.kind, entry.reached, transcript)?;
    }
    tell_end(section, ended, &end, transcript)
}
