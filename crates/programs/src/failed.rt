//! The end of a program that failed.
use std::io;

/// The program ends with status 1; what went wrong has been printed.
#[derive(Drop)]
pub struct Failed;

impl From<io::Error> for Failed {
    fn from(_: io::Error) -> Failed {
        Failed
    }
}
