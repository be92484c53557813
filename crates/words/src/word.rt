//! A word of a line, and what it says.
ghost use Rattle.std.specs.Prelude.{◌≡◌};
ghost use Rattle.std.specs.Option.{option_and_then};
ghost use Rattle.words.specs.Numbers.{signed_of};
ghost use Rattle.words.specs.Sorts.{number_text, number_in};

use crate::numbers::{decimal_value, hexadecimal_value, signed_value};

/// A word of a line, as what it is taken: a command's name, a decimal or a hexadecimal number, marks for inputs, or a field's tag.
#[derive(Clone, Copy)]
pub enum Word<'a> {
    Command(&'a [u8]),
    Number(&'a [u8]),
    Hexadecimal(&'a [u8]),
    Marks(&'a [u8]),
    Tag(&'a [u8]),
}

/// A word with its number in the line, counted from 1.
#[derive(Clone, Copy)]
pub struct Placed<'a> {
    pub word: Word<'a>,
    pub at: u8,
}

impl Placed<'_> {
    /// What the word says as a number without a sign, decimal or hexadecimal as it is taken, or None where it says no number.
    pub fn number(self) -> Option<u64>
        ensures { result ≡ number_in self.entry.word }
    {
        match self.word {
            Word::Number(text) => decimal_value(text),
            Word::Hexadecimal(text) => hexadecimal_value(text),
            _ => None,
        }
    }

    /// What the word says as a decimal number after a sign or none, or None where it says no number.
    pub fn signed(self) -> Option<i64>
        ensures { result ≡ option_and_then signed_of (number_text self.entry.word) }
    {
        match self.word {
            Word::Number(text) => signed_value(text),
            _ => None,
        }
    }
}
