//! One phase of a run.
ghost use Rattle.std.specs.Prelude.{◌≡◌, ◌+◌, ◌<◌, ◌^◌, ◌+ℤ◌, FitsSigned};
ghost use Rattle.std.specs.Int.{w32};
ghost use Rattle.runs.specs.Notes.{begun_row, counted};

use phases::Position;
use std::fmt;

/// A phase of a run. One that comes again and again, with no other between, is one row.
#[derive(Clone, Copy)]
pub struct Row {
    /// Which phase of which sequence.
    pub at: Position,
    /// How many times it came.
    pub times: u32,
    /// The tick that entered it first, 1 being the first of the run.
    pub entered: u32,
    /// How many ticks it lasted, the entering tick included, all times together.
    pub ticks: u32,
    /// The steps made in it, forward less back, all times together.
    pub steps: i32,
    /// The counter at its end.
    pub counter: i32,
    /// The outputs in it when it came first.
    pub outputs: u8,
}

impl Row {
    // A phase that was entered in that tick, under these outputs.
    pub(crate) fn new(at: Position, entered: u32, outputs: u8) -> Row
        ensures { result ≡ begun_row at entered outputs }
    {
        Row {
            at,
            times: 1,
            entered,
            ticks: 0,
            steps: 0,
            counter: 0,
            outputs,
        }
    }

    // A tick of the phase: the step made, and the counter then.
    pub(crate) fn count(&mut self, step: i8, counter: i32)
        requires ticks { self.old.ticks + 1 < 2 ^ 32 }
        requires steps { FitsSigned w32 (self.old.steps +ℤ step) }
        ensures { self.new ≡ counted step counter self.old }
    {
        self.ticks += 1;
        self.steps += i32::from(step);
        self.counter = counter;
    }
}

// A number of ticks as a time in ms: a tick is 1/40 ms.
#[derive(Clone, Copy)]
pub(crate) struct Milliseconds(pub u32);

impl fmt::Display for Milliseconds {
    fn fmt<W: fmt::Write>(&self, f: &mut fmt::Formatter<W>) -> fmt::Result {
        let whole = self.0 / 40;
        let thousandths = self.0 % 40 * 25;
        write!(f, "{whole:>6}.{thousandths:03}")
    }
}

impl fmt::Display for Row {
    fn fmt<W: fmt::Write>(&self, f: &mut fmt::Formatter<W>) -> fmt::Result {
        let Position { sequence, phase } = self.at;
        let entered = self.entered;
        let from = Milliseconds(self.entered);
        let lasts = Milliseconds(self.ticks);
        let steps = self.steps;
        let counter = self.counter;
        let outputs = self.outputs;
        write!(
            f,
            "  {sequence:02} {phase:02}  {entered:>9}  {from}  {lasts}  {steps:>+9}  {counter:>+9}  {outputs:02X}"
        )?;
        if self.times > 1 {
            let times = self.times;
            write!(f, "  {times} times")?;
        }
        writeln!(f)
    }
}
