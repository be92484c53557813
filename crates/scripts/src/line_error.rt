//! Why a line of a script is not taken.
ghost use Rattle.std.specs.Prelude.{◌≡◌};
ghost use Rattle.scripts.specs.declared.line_error.LineError.TheVariants as line_error;

use crate::expected::Expected;
use std::alloc::AllocError;

#[derive(Clone, Copy)]
pub(crate) enum LineError {
    Expected(Expected),
    NoMemory,
}

impl From<Expected> for LineError {
    ghost from_gives = { λ expected error. error ≡ line_error.Expected expected };

    fn from(expected: Expected) -> LineError {
        LineError::Expected(expected)
    }
}

impl From<AllocError> for LineError {
    ghost from_gives = { λ _ error. error ≡ line_error.NoMemory };

    fn from(_: AllocError) -> LineError {
        LineError::NoMemory
    }
}
