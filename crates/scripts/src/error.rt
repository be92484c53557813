//! Why a script is not played to its end.
ghost use Rattle.std.specs.Prelude.{◌≡◌};
ghost use Rattle.scripts.specs.declared.error.ScriptError.TheVariants.{NoMemory};

use crate::expected::Expected;
use std::alloc::AllocError;
use std::fmt;

/// Why a script is not played to its end.
#[derive(Clone, Copy)]
pub enum ScriptError {
    /// The line of this number, from 1, is not understood; and what was expected in its place.
    Line { number: usize, expected: Expected },
    /// The heap has no room for the calls, the answers or the transcript.
    NoMemory,
}

impl From<AllocError> for ScriptError {
    ghost from_gives = { λ _ error. error ≡ NoMemory };

    fn from(_: AllocError) -> ScriptError {
        ScriptError::NoMemory
    }
}

impl fmt::Display for ScriptError {
    ghost use Rattle.std.specs.Prelude.{Some};
    ghost use Rattle.scripts.specs.Messages.{error_text};

    ghost output = { λ error. Some (error_text error) };

    fn fmt<W: fmt::Write>(&self, f: &mut fmt::Formatter<W>) -> fmt::Result {
        match self {
            ScriptError::Line { number, expected } => write!(
                f,
                "line {number}: expected {expected}"
            ),
            ScriptError::NoMemory => write!(f, "there is not enough memory"),
        }
    }
}
