//! What can go wrong in a run.
ghost use Rattle.std.specs.Prelude.{◌≡◌};
ghost use Rattle.engine.specs.Leaving.{run_fault};

use faults::{Cause, Fault, Place};

// No word of a line is at fault.
pub(crate) fn run_fault(cause: Cause) -> Fault
    ensures { result ≡ run_fault cause }
{
    Fault {
        cause,
        place: Place::Run,
        word: None,
    }
}
