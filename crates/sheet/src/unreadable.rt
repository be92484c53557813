//! Why no proof sheet can be made of a file.
use std::fmt;

/// Why no proof sheet can be made of a file.
#[derive(Clone, Copy, Debug)]
pub enum Unreadable {
    /// The address is above 63.
    WrongAddress,
    /// The first byte that is neither printable nor 0Dh nor 0Ah, and its offset, counted from 0.
    NotText { offset: usize, value: u8 },
    /// The file holds no character of a line.
    Empty,
    /// The heap has no room for the sheet.
    NoMemory,
}

impl fmt::Display for Unreadable {
    fn fmt<W: fmt::Write>(&self, f: &mut fmt::Formatter<W>) -> fmt::Result {
        match self {
            Unreadable::WrongAddress => write!(f, "a module's address is 00 to 63"),
            Unreadable::NotText { offset, value } => write!(
                f,
                "no sequence file: the byte at offset {offset} is {value:02X}h, which is no text"
            ),
            Unreadable::Empty => write!(f, "the file is empty: it holds no line"),
            Unreadable::NoMemory => write!(f, "there is not enough memory"),
        }
    }
}
