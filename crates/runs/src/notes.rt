//! The run of a sequence, watched tick by tick.
ghost use Rattle.std.specs.Prelude.{◌≡◌, ◌+◌, ◌<◌, ◌^◌, ◌+ℤ◌, suc, true, false, ◌≤◌, None, IfOk, OnOk, FitsSigned};
ghost use Rattle.std.specs.Int.{w32};
ghost use Rattle.law.specs.Events.Event.{tick as ticking};
ghost use Rattle.history.specs.Hosts.{state_of, next_of};
ghost use Rattle.runs.specs.Ticks.{run_for};
ghost use Rattle.runs.specs.Endings.{is_started};
ghost use Rattle.runs.specs.Notes.{noted, nothing, completed, entering, with_tick, ticked, times_of, ticks_of, steps_of, Within};
ghost use Rattle.runs.specs.Runs.{start_line, called, missing_in, ended_by, is_endless, fault_in, EndsAs, WasRun};

use crate::report::{Ending, Report};
use crate::row::Row;
use faults::Fault;
use history::Host;
use outputs::StepOutput;
use phases::{Phase, Position};
use replies::two_digits;
use std::alloc::{AllocError, Global};

/// Ten minutes, a tick being 1/40,000 s: a run that goes on after so many ticks counts as endless.
pub const MOST_TICKS: u32 = 24_000_000;

// So many phases are told; those after them are counted.
const MOST_ROWS: usize = 1_000;

// What is noted of a run while it goes on: the rows that are complete, how many phases are left out, the row of the phase that was entered
// last, whether that phase goes on, and the place without a phase that the last tick entered, if no sub-sequence was open to return from there.
#[derive(Drop)]
struct Notes {
    rows: Vec<Row>,
    left_out: u32,
    ticks: u32,
    last: Option<Row>,
    going: bool,
    missing: Option<Position>,
}

impl Notes {
    fn new(heap: Global) -> Notes
        ensures ticks { result.ticks ≡ 0 }
        ensures noted { noted result ≡ nothing }
        ensures within { Within (noted result) 0 }
    {
        Notes {
            rows: Vec::new(heap),
            left_out: 0,
            ticks: 0,
            last: None,
            going: false,
            missing: None,
        }
    }

    // The last row is complete: it is listed, or its phase is left out.
    fn complete(&mut self) -> Result<(), AllocError>
        requires { self.old.left_out + times_of self.old.last < 2 ^ 32 }
        ensures ticks { self.new.ticks ≡ self.old.ticks }
        ensures missing { self.new.missing ≡ self.old.missing }
        ensures noted { OnOk result (noted self.new ≡ completed (noted self.old) self.old.last) }
    {
        let Some(row) = self.last.take() else {
            return Ok(());
        };
        if self.rows.len() < MOST_ROWS {
            self.rows.push(row)?;
        } else {
            self.left_out += row.times;
        }
        Ok(())
    }

    // This tick entered that place, which has that phase or none; the outputs were these before it.
    fn enter(&mut self, at: Position, phase: Option<Phase>, outputs: u8) -> Result<(), AllocError>
        requires { self.old.left_out + times_of self.old.last + 1 < 2 ^ 32 }
        ensures ticks { OnOk result (self.new.ticks ≡ self.old.ticks) }
        ensures missing { OnOk result (self.new.missing ≡ self.old.missing) }
        ensures noted { OnOk result (noted self.new ≡ entering (noted self.old) self.old.ticks at phase outputs) }
    {
        self.going = phase.is_some();
        let Some(phase) = phase else {
            return Ok(());
        };
        match &mut self.last {
            Some(row) if row.at == at => row.times += 1,
            _ => {
                self.complete()?;
                let outputs = phase.outputs.unwrap_or(outputs);
                self.last = Some(Row::new(at, self.ticks, outputs));
            }
        }
        Ok(())
    }

    // This tick belongs to the phase that goes on, if one does: the step that it made, and the counter then.
    fn count(&mut self, step: i8, counter: i32)
        requires ticks { ticks_of self.old.last + 1 < 2 ^ 32 }
        requires steps { FitsSigned w32 (steps_of self.old.last +ℤ step) }
        ensures ticks { self.new.ticks ≡ self.old.ticks }
        ensures missing { self.new.missing ≡ self.old.missing }
        ensures noted { noted self.new ≡ with_tick (noted self.old) step counter }
    {
        if !self.going {
            return;
        }
        if let Some(row) = &mut self.last {
            row.count(step, counter);
        }
    }

    // One tick.
    fn tick<O: StepOutput>(&mut self, host: &mut Host<O>) -> Result<(), AllocError>
        requires ticks { self.old.ticks < 24000000 }
        requires within { Within (noted self.old) self.old.ticks }
        ensures ticks { OnOk result (self.new.ticks ≡ suc self.old.ticks) }
        ensures missing { OnOk result (self.new.missing ≡ missing_in O.CYCLE (state_of O.CYCLE host.old)) }
        ensures state { state_of O.CYCLE host.new ≡ next_of O.CYCLE host.old ticking }
        ensures noted { OnOk result (noted self.new ≡ ticked O.CYCLE (state_of O.CYCLE host.old) (suc self.old.ticks) (noted self.old)) }
    {
        let upcoming = host.module().control().upcoming();
        let outputs = host.module().control().outputs;
        self.missing = missing_in(host);
        let phase = upcoming.and_then(|at| host.phase_at(at));
        let (step, _) = host.tick();
        self.ticks += 1;
        if let Some(at) = upcoming {
            self.enter(at, phase, outputs)?;
        }
        self.count(step, host.module().axis().counter());
        Ok(())
    }

    // How the run ended, where the module is still busy or not, and has that fault record.
    fn ending(&self, busy: bool, fault: Option<Fault>) -> Ending
        ensures endless { is_endless result ≡ busy }
        ensures fault { busy ≡ false → fault_in result ≡ fault }
        ensures place { busy ≡ false → fault ≡ None → result ≡ ended_by self.now.missing }
    {
        match (fault, self.missing) {
            _ if busy => Ending::Endless,
            (Some(fault), _) => Ending::Fault(fault),
            (None, Some(at)) => Ending::NoPhase(at),
            (None, None) => Ending::Stop,
        }
    }

    // What is told of the run, at its end.
    fn report<O: StepOutput>(self, host: &Host<O>, sequence: u8, started: bool) -> Report
        ensures sequence { result.sequence ≡ sequence }
        ensures started { result.started ≡ started }
        ensures ticks { result.ticks ≡ self.ticks }
        ensures rows { result.rows.items ≡ self.rows.items }
        ensures left_out { result.left_out ≡ self.left_out }
        ensures ended { EndsAs O.CYCLE (state_of O.CYCLE host.now) result }
        ensures place { is_endless result.ending ≡ false → fault_in result.ending ≡ None → result.ending ≡ ended_by self.missing }
    {
        let module = host.module();
        let ending = self.ending(module.control().busy(), module.fault());
        Report {
            sequence,
            started,
            rows: self.rows,
            left_out: self.left_out,
            ticks: self.ticks,
            ending,
            counter: module.axis().counter(),
        }
    }
}

// The place without a phase where the next tick ends the run: the one that it enters, unless it returns from a sub-sequence there.
fn missing_in<O: StepOutput>(host: &Host<O>) -> Option<Position>
    ensures { result ≡ missing_in O.CYCLE (state_of O.CYCLE host.now) }
{
    let control = host.module().control();
    let at = control.upcoming()?;
    let ends = control.open_sub_sequences() == 0 && host.phase_at(at).is_none();
    ends.then_some(at)
}

// Whether a sequence has been started: the next tick enters a phase, and the fault record is empty.
fn is_started<O: StepOutput>(host: &Host<O>) -> bool
    ensures { result ≡ is_started O.CYCLE (state_of O.CYCLE host.now) }
{
    let module = host.module();
    module.control().upcoming().is_some() && module.fault().is_none()
}

// The line that starts a sequence, after the address.
fn start_line(sequence: u8) -> [u8; 5]
    ensures { result ≡ start_line sequence }
{
    let [tens, units] = two_digits(sequence);
    [b'S', b'S', b' ', tens, units]
}

/// Runs a sequence once on the module: power is cut, which ends what goes on, the fault record is asked for, which clears it, the counter is
/// set to 0 and the outputs to FFh, and the sequence is started. Time passes until the run ends, or for `MOST_TICKS` ticks. A sequence that
/// the module does not have ends with the fault of the line that was to start it.
pub fn run<O: StepOutput>(
    heap: Global,
    host: &mut Host<O>,
    sequence: u8,
) -> Result<Report, AllocError>
    ensures sequence { IfOk result (λ r. r.sequence ≡ sequence) }
    ensures state { IfOk result (λ r. state_of O.CYCLE host.new ≡ run_for O.CYCLE r.ticks (called O.CYCLE sequence (state_of O.CYCLE host.old))) }
    ensures run { IfOk result (λ r. WasRun O.CYCLE (called O.CYCLE sequence (state_of O.CYCLE host.old)) r) }
{
    host.send_own(b"GR");
    host.send_own(b"RX");
    host.send_own(b"DI");
    host.send_own(b"GL FF");
    host.send_own(&start_line(sequence));
    let started = is_started(host);
    let mut notes = Notes::new(heap);
    for _ in 0..MOST_TICKS {
        if !host.module().control().busy() {
            break;
        }
        notes.tick(host)?;
    }
    notes.complete()?;
    Ok(notes.report(host, sequence, started))
}
