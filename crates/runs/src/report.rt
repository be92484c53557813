//! What is told of a run.
ghost use Rattle.std.specs.Prelude.{◌≡◌, is_some};
ghost use Rattle.runs.specs.Runs.{fault_in};

use crate::row::Row;
use faults::Fault;
use phases::Position;
use std::fmt;

/// How a run ended.
#[derive(Clone, Copy)]
pub enum Ending {
    /// By the stop, NS 54: at the end of a phase, or where a sub-sequence returned to it.
    Stop,
    /// There is no written phase where the run was to go on, and no sub-sequence was open to return from.
    NoPhase(Position),
    /// By a fault: of the run, or of the line that was to start it.
    Fault(Fault),
    /// It goes on after `MOST_TICKS` ticks, and was cut off.
    Endless,
}

/// A sequence that was run once.
#[derive(Drop)]
pub struct Report {
    /// Its number.
    pub sequence: u8,
    /// Whether it was started: its phase 1 was to be entered, and the fault record was empty.
    pub started: bool,
    /// Its phases in the order in which they were entered, at most 1,000 rows.
    pub rows: Vec<Row>,
    /// How many times the phases came that are not among the rows.
    pub left_out: u32,
    /// The ticks of the whole run.
    pub ticks: u32,
    /// How it ended.
    pub ending: Ending,
    /// The counter at its end, which was 0 at the start.
    pub counter: i32,
}

impl Report {
    /// Whether a fault ended the run.
    pub fn is_faulty(&self) -> bool
        ensures { result ≡ is_some (fault_in self.now.ending) }
    {
        matches!(self.ending, Ending::Fault(_))
    }
}

impl fmt::Display for Ending {
    fn fmt<W: fmt::Write>(&self, f: &mut fmt::Formatter<W>) -> fmt::Result {
        match self {
            Ending::Stop => write!(f, "ended by the stop, NS 54"),
            Ending::NoPhase(at) => {
                let Position { sequence, phase } = *at;
                write!(
                    f,
                    "ended where sequence {sequence:02} has no phase {phase:02}"
                )
            }
            Ending::Fault(fault) => {
                let number = fault.cause.number();
                let place = fault.place;
                write!(f, "ENDED BY FAULT {number} at the {place}")
            }
            Ending::Endless => write!(f, "ENDLESS: cut off, it had not ended"),
        }
    }
}

impl fmt::Display for Report {
    fn fmt<W: fmt::Write>(&self, f: &mut fmt::Formatter<W>) -> fmt::Result {
        let sequence = self.sequence;
        writeln!(f, "run of sequence {sequence:02}")?;
        if !self.started {
            writeln!(f, "  THE SEQUENCE WAS NOT STARTED")?;
        }
        writeln!(
            f,
            "  phase       tick       at ms      for ms      steps    counter  outputs"
        )?;
        for row in &self.rows {
            write!(f, "{row}")?;
        }
        if self.left_out > 0 {
            let more = self.left_out;
            writeln!(f, "  phases not listed: {more}")?;
        }
        let ending = self.ending;
        let ticks = self.ticks;
        writeln!(f, "  {ending} after {ticks} ticks")?;
        match self.counter {
            0 => writeln!(f, "  the table stands at the origin"),
            counter => writeln!(f, "  THE TABLE STANDS {counter:+} STEPS FROM THE ORIGIN"),
        }
    }
}
