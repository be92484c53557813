//! What the arguments of a program ask for.
use std::fmt;

/// A program is asked for its usage, or for its work.
#[derive(Clone, Copy)]
pub enum Request<T> {
    Usage,
    Work(T),
}

/// Why the arguments of a program cannot be followed, with the word at fault.
#[derive(Clone, Copy)]
pub enum WrongUse<'a> {
    /// It is no address of a module.
    Address(&'a str),
    /// No address is given after --address.
    NoAddress,
    /// It is no step output.
    Output(&'a str),
    /// No step output is given after --output.
    NoOutput,
    /// The program has no such option.
    Option(&'a str),
    /// It names a second file, where one is taken.
    TwoFiles(&'a str),
    /// No file is named, where one is wanted.
    NoFile,
}

impl fmt::Display for WrongUse<'_> {
    fn fmt<W: fmt::Write>(&self, f: &mut fmt::Formatter<W>) -> fmt::Result {
        match self {
            WrongUse::Address(text) => write!(
                f,
                "'{text}' is no address: a module's address is 00 to 63"
            ),
            WrongUse::NoAddress => write!(f, "--address wants an address, 00 to 63"),
            WrongUse::Output(text) => write!(
                f,
                "'{text}' is no step output: there are full, half, pulse and dry"
            ),
            WrongUse::NoOutput => write!(f, "--output wants full, half, pulse or dry"),
            WrongUse::Option(text) => write!(f, "there is no option '{text}'"),
            WrongUse::TwoFiles(text) => write!(f, "one file at a time: '{text}' is a second one"),
            WrongUse::NoFile => write!(f, "no file is named"),
        }
    }
}
