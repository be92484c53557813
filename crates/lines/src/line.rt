//! The characters of one line.
ghost use Rattle.std.specs.Prelude.{◌≤◌};
ghost use Rattle.lines.specs.declared.line.TheConstants.{CAPACITY};

mod contents;

/// The most characters that a line has.
const CAPACITY: usize = 64;

/// Whom a line is for: the module itself, every module, or another module.
#[derive(Clone, Copy, PartialEq, Debug)]
pub enum Addressee {
    Own,
    Broadcast,
    Stranger,
}

/// What is kept of a line: its first 64 characters, whether the first and the second were damaged, and whether the line is refused:
/// any was damaged, or there were more than 64.
#[derive(Clone, Copy)]
pub struct Line {
    bytes: [u8; CAPACITY],
    len: usize,
    first_damaged: bool,
    second_damaged: bool,
    refused: bool,
    ghost within: { len ≤ CAPACITY },
}
