//! The proof sheet of a sequence file.
ghost use Rattle.std.specs.Prelude.{◌≡◌, ◌≤◌, vec_len};
ghost use Rattle.sheet.specs.Sheets.{refused_in, stored_in, faults_in, is_unfinished, all_started, is_clean};

use crate::entry::Entry;
use crate::text::Text;
use crate::verdict::ShelfPhase;
use lines::Line;
use runs::Report;
use std::fmt;

/// The proof sheet of a file.
#[derive(Drop)]
pub struct Sheet {
    /// The lines of the file, in order, with what became of them.
    pub entries: Vec<Entry>,
    /// The unfinished line at its end, empty where there is none.
    pub held: Line,
    /// Whether the file left the module busy.
    pub busy: bool,
    /// The phases that the file means to store, against the module.
    pub shelf: Vec<ShelfPhase>,
    /// The run of each of the module's sequences, in order of creation.
    pub runs: Vec<Report>,
}

impl Sheet {
    /// How many lines are refused.
    pub fn refused(&self) -> usize
        ensures { result ≡ refused_in self.now.entries.items }
    {
        self.entries.iter().filter(|line| line.is_refused()).count()
    }

    /// How many phases the file means to store.
    pub fn intended(&self) -> usize
        ensures { result ≡ vec_len self.now.shelf }
    {
        self.shelf.len()
    }

    /// How many phases are stored as on the shelf.
    pub fn stored(&self) -> usize
        ensures value { result ≡ stored_in self.now.shelf.items }
        ensures within { result ≤ vec_len self.now.shelf }
    {
        self.shelf.iter().filter(|phase| phase.is_stored()).count()
    }

    /// How many runs were ended by a fault.
    pub fn faulty_runs(&self) -> usize
        ensures { result ≡ faults_in self.now.runs.items }
    {
        self.runs.iter().filter(|run| run.is_faulty()).count()
    }

    /// Whether the file ends in the middle of a line.
    pub fn is_unfinished(&self) -> bool
        ensures { result ≡ is_unfinished self.now }
    {
        !self.held.characters().is_empty()
    }

    // Whether each of the module's sequences was started.
    fn all_started(&self) -> bool
        ensures { result ≡ all_started self.now.runs.items }
    {
        self.runs.iter().all(|run| run.started)
    }

    /// Whether no line is refused, none is unfinished, each phase is stored as on the shelf, each sequence was started, and no run was ended
    /// by a fault.
    pub fn is_clean(&self) -> bool
        ensures { result ≡ is_clean self.now }
    {
        self.refused() == 0
            && !self.is_unfinished()
            && self.stored() == self.intended()
            && self.all_started()
            && self.faulty_runs() == 0
    }

    fn widest(&self) -> usize {
        self.entries.iter().map(Entry::width).max().unwrap_or(0)
    }

    fn write_counts<W: fmt::Write>(&self, f: &mut fmt::Formatter<W>) -> fmt::Result {
        let refused = self.refused();
        let stored = self.stored();
        let intended = self.intended();
        let faulty = self.faulty_runs();
        writeln!(f, "lines refused: {refused}")?;
        writeln!(f, "{stored} of {intended} phases stored as on the shelf")?;
        writeln!(f, "runs ended by a fault: {faulty}")
    }

    fn write_entries<W: fmt::Write>(&self, f: &mut fmt::Formatter<W>) -> fmt::Result {
        let width = self.widest();
        for entry in &self.entries {
            entry.write(f, width)?;
        }
        Ok(())
    }

    fn write_held<W: fmt::Write>(&self, f: &mut fmt::Formatter<W>) -> fmt::Result {
        if !self.is_unfinished() {
            return Ok(());
        }
        let held = Text(self.held.characters());
        writeln!(f)?;
        writeln!(
            f,
            "THE FILE ENDS IN THE MIDDLE OF A LINE: its carriage return is missing, and it was not stored"
        )?;
        writeln!(f, "  {held}")
    }

    fn write_busy<W: fmt::Write>(&self, f: &mut fmt::Formatter<W>) -> fmt::Result {
        if !self.busy {
            return Ok(());
        }
        writeln!(f)?;
        writeln!(
            f,
            "THE FILE LEAVES THE MODULE BUSY: what went on was cut off before the phases were read back"
        )
    }

    fn write_shelf<W: fmt::Write>(&self, f: &mut fmt::Formatter<W>) -> fmt::Result {
        writeln!(f)?;
        writeln!(f, "the shelf against the module")?;
        for phase in &self.shelf {
            write!(f, "{phase}")?;
        }
        Ok(())
    }
}

impl fmt::Display for Sheet {
    fn fmt<W: fmt::Write>(&self, f: &mut fmt::Formatter<W>) -> fmt::Result {
        self.write_entries(f)?;
        self.write_held(f)?;
        self.write_busy(f)?;
        self.write_shelf(f)?;
        for run in &self.runs {
            writeln!(f)?;
            write!(f, "{run}")?;
        }
        writeln!(f)?;
        self.write_counts(f)
    }
}
