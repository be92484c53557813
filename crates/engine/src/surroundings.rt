//! What a run reads in a tick.
ghost use Rattle.std.specs.Prelude.{◌≡◌};
ghost use Rattle.engine.specs.Surroundings.{program};
ghost use Rattle.engine.specs.Entering.{phase_at};

use motion::Parameters;
use phases::{Phase, Position};
use store::Directory;

/// What a run reads: the 414 records and the directory of the sequences, the counter in steps, the levels of the inputs, and the
/// parameters of movements.
#[derive(Clone, Copy)]
pub struct Surroundings<'a> {
    pub records: &'a [Phase],
    pub directory: &'a Directory,
    pub counter: i32,
    pub levels: u8,
    pub parameters: Parameters,
}

impl<'a> Surroundings<'a> {
    // The written phase at a position, if there is one.
    pub(crate) fn phase_at(&self, at: Position) -> Option<Phase>
        ensures { result ≡ phase_at (program self.now) at }
    {
        self.directory.phase_at(self.records, at)
    }
}
