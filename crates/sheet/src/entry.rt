//! A line of the file, what became of it, and the reply.
ghost use Rattle.std.specs.Prelude.{◌≡◌};
ghost use Rattle.sheet.specs.Outcomes.{outcome_of, is_refused};

use crate::text::Text;
use faults::{Cause, Fault};
use history::Reply;
use lines::Line;
use orders::Judgement;
use std::fmt;

/// What became of a line.
#[derive(Clone, Copy)]
pub enum LineOutcome {
    /// The module carried it out.
    Accepted,
    /// It is for the module, or for all, and was refused for this.
    Refused(Fault),
    /// It is for another module.
    Stranger,
}

/// A line of the file.
#[derive(Clone, Copy)]
pub struct Entry {
    /// Its number in the file, from 1.
    pub number: usize,
    /// What the module's receiver held of it, at most 64 characters.
    pub line: Line,
    /// What became of it.
    pub outcome: LineOutcome,
    /// The module's reply; empty for a line to all and for another module's.
    pub reply: Reply,
}

impl LineOutcome {
    // What becomes of a line that the module judges so.
    pub(crate) fn of(judgement: Judgement) -> LineOutcome
        ensures { result ≡ outcome_of judgement }
    {
        match judgement {
            Judgement::Own(Ok(_)) | Judgement::Broadcast(Ok(_)) => LineOutcome::Accepted,
            Judgement::Own(Err(fault)) | Judgement::Broadcast(Err(fault)) => {
                LineOutcome::Refused(fault)
            }
            Judgement::Stranger => LineOutcome::Stranger,
        }
    }
}

// A refusal with its cause, its place and its word.
fn write_refusal<W: fmt::Write>(f: &mut fmt::Formatter<W>, fault: Fault) -> fmt::Result {
    let number = fault.cause.number();
    let place = fault.place;
    match fault.cause {
        // No character of a file is damaged.
        Cause::BadLine => write!(f, "refused: the line has more than 64 characters")?,
        _ => write!(f, "refused: {fault}")?,
    }
    write!(f, " ({number}) at the {place}")?;
    match fault.word {
        Some(word) => write!(f, ", word {word}"),
        None => Ok(()),
    }
}

// The bytes of a reply: its text, or two bytes as they are.
#[derive(Clone, Copy)]
struct Answer<'a>(&'a [u8]);

impl fmt::Display for Answer<'_> {
    fn fmt<W: fmt::Write>(&self, f: &mut fmt::Formatter<W>) -> fmt::Result {
        match self.0 {
            [] => write!(f, "no reply"),
            [first, second] => write!(f, "{first:02X}h {second:02X}h"),
            [text @ .., _, _] => {
                let text = Text(text);
                write!(f, "{text}")
            }
            _ => Ok(()),
        }
    }
}

impl Entry {
    pub(crate) fn is_refused(&self) -> bool
        ensures { result ≡ is_refused self.now.outcome }
    {
        matches!(self.outcome, LineOutcome::Refused(_))
    }

    // How many characters of the line are shown.
    pub(crate) fn width(&self) -> usize {
        self.line.characters().len()
    }

    // What is said of the line after its reply; the text of an answer speaks for itself.
    fn write_judgement<W: fmt::Write>(&self, f: &mut fmt::Formatter<W>) -> fmt::Result {
        match self.outcome {
            LineOutcome::Stranger => write!(f, "  another module's line, touches nothing here"),
            LineOutcome::Refused(fault) => {
                write!(f, "  ")?;
                write_refusal(f, fault)
            }
            LineOutcome::Accepted if self.reply.length > 2 => Ok(()),
            LineOutcome::Accepted => write!(f, "  accepted"),
        }
    }

    // Writes the entry with its text in a column of the given width.
    pub(crate) fn write<W: fmt::Write>(
        &self,
        f: &mut fmt::Formatter<W>,
        width: usize,
    ) -> fmt::Result {
        let number = self.number;
        let text = Text(self.line.characters());
        let answer = Answer(self.reply.text());
        write!(f, "line {number:>3}  {text:<width$}  {answer}")?;
        self.write_judgement(f)?;
        writeln!(f)
    }
}
