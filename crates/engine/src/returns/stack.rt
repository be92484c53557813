//! At most four sub-sequences are open.
ghost use Rattle.std.specs.Prelude.{◌≡◌, [], ◌∷◌, is_ok, if◌then◌else◌, length};
ghost use Rattle.engine.specs.Stacks.{opened, latest, earlier};
ghost use Rattle.engine.specs.Leaving.{one_more};

use super::Returns;
use crate::fault::run_fault;
use faults::{Cause, Fault};
use phases::Position;

const MOST_OPEN: usize = 4;

impl Returns {
    /// No sub-sequence is open.
    pub fn new() -> Returns
        ensures { opened result ≡ [] }
    {
        Returns {
            places: [None; MOST_OPEN],
            depth: 0,
        }
    }

    /// How many are open, at most four.
    pub fn depth(&self) -> usize
        ensures { result ≡ length (opened self.now) }
    {
        self.depth
    }

    /// Opens one more, which returns to that phase, or without one to the end of the run. Four that are open already: fault 10.
    pub fn push(&mut self, next: Option<Position>) -> Result<(), Fault>
        ensures answer { result ≡ one_more (opened self.old) }
        ensures after { opened self.new ≡ (if is_ok result then next ∷ opened self.old else opened self.old) }
    {
        if self.depth == MOST_OPEN {
            return Err(run_fault(Cause::TooManyOpen));
        }
        self.places[self.depth] = next;
        self.depth += 1;
        Ok(())
    }

    /// Closes the latest, if one is open, and answers where it returns to; that may be the end of the run.
    pub fn pop(&mut self) -> Option<Option<Position>>
        ensures answer { result ≡ latest (opened self.old) }
        ensures after { opened self.new ≡ earlier (opened self.old) }
    {
        if self.depth == 0 {
            return None;
        }
        self.depth -= 1;
        Some(self.places[self.depth])
    }
}
