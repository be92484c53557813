//! The verdict on a phase of the shelf: what the module reads back in its place.
ghost use Rattle.std.specs.Prelude.{◌≡◌};
ghost use Rattle.sheet.specs.Verdicts.{Judged, is_stored};

use crate::shelf::IntendedPhase;
use crate::text::{ReadBack, Text};
use phases::{Phase, Position};
use std::fmt;

/// Whether the module reads back what the line means.
#[derive(Clone, Copy)]
pub enum Verdict {
    /// It reads back the record that is meant, which is this.
    Stored(Phase),
    /// It reads back this record, which is not the one that is meant.
    Otherwise(Phase),
    /// It has no phase there.
    Missing,
}

/// A phase of the shelf with its verdict.
#[derive(Clone, Copy)]
pub struct ShelfPhase {
    /// The phase that a line means to store.
    pub intended: IntendedPhase,
    /// What the module has in its place.
    pub verdict: Verdict,
}

impl Verdict {
    // The verdict where a line means one record, and the module reads back `found`.
    pub(crate) fn of(intended: Option<Phase>, found: Option<Phase>) -> Verdict
        ensures { Judged intended found result }
    {
        match found {
            None => Verdict::Missing,
            Some(stored) if intended == found => Verdict::Stored(stored),
            Some(stored) => Verdict::Otherwise(stored),
        }
    }

    // Whether the phase is stored as on the shelf.
    pub(crate) fn is_stored(&self) -> bool
        ensures { result ≡ is_stored self.now }
    {
        matches!(self, Verdict::Stored(_))
    }
}

impl ShelfPhase {
    pub(crate) fn is_stored(&self) -> bool
        ensures { result ≡ is_stored self.now.verdict }
    {
        self.verdict.is_stored()
    }
}

// A number in two digits, or -- for none.
#[derive(Clone, Copy)]
struct Digits(Option<u8>);

impl fmt::Display for Digits {
    fn fmt<W: fmt::Write>(&self, f: &mut fmt::Formatter<W>) -> fmt::Result {
        match self.0 {
            Some(number) => write!(f, "{number:02}"),
            None => write!(f, "--"),
        }
    }
}

impl IntendedPhase {
    fn write_place<W: fmt::Write>(&self, f: &mut fmt::Formatter<W>) -> fmt::Result {
        let sequence = Digits(self.sequence);
        let phase = Digits(self.phase);
        write!(f, "sequence {sequence}  phase {phase}")
    }

    // Writes a record in the place of this phase, as it is read back.
    fn write_record<W: fmt::Write>(&self, f: &mut fmt::Formatter<W>, record: Phase) -> fmt::Result {
        let at = Position {
            sequence: self.sequence.unwrap_or(0),
            phase: self.phase.unwrap_or(0),
        };
        let text = ReadBack { at, record };
        writeln!(f, "{text}")
    }

    // Writes what the line means: its record, or the line itself where it is refused.
    fn write_intended<W: fmt::Write>(&self, f: &mut fmt::Formatter<W>) -> fmt::Result {
        match self.record {
            Some(record) => self.write_record(f, record),
            None => {
                let line = Text(self.line.characters());
                writeln!(f, "{line}")
            }
        }
    }
}

impl fmt::Display for ShelfPhase {
    fn fmt<W: fmt::Write>(&self, f: &mut fmt::Formatter<W>) -> fmt::Result {
        self.intended.write_place(f)?;
        match self.verdict {
            Verdict::Stored(record) => {
                write!(f, "  stored      ")?;
                self.intended.write_record(f, record)
            }
            Verdict::Otherwise(record) => {
                write!(f, "  STORED OTHERWISE\n    the shelf:  ")?;
                self.intended.write_intended(f)?;
                write!(f, "    the module: ")?;
                self.intended.write_record(f, record)
            }
            Verdict::Missing => {
                write!(f, "  NOT STORED  ")?;
                self.intended.write_intended(f)
            }
        }
    }
}
