//! The reader of a line's words.
ghost use Rattle.std.specs.Prelude.{◌≡◌, ℕ, List, ◌∷◌, Option, IfSome};
ghost use Rattle.std.specs.Option.{option_map};
ghost use Rattle.words.specs.Words.{words, upcoming, past};
ghost use Rattle.words.specs.Left.{left_in, ahead};
ghost use Rattle.words.specs.Sorts.{command_text, tag_text, text_of};
ghost use Rattle.words.specs.Readings.{TakenAs, Follows, by, alone, unsigned as unsigned_in, end as end_in, only_unsigned, only_signed, only_hexadecimal};

use crate::word::{Placed, Word};
use faults::Fault;

/// Goes through the words of a line: what is left of it, None after the last word, and the number of the next word. Numbers stay
/// at 255.
#[derive(Drop)]
pub struct Reader<'a> {
    rest: Option<&'a [u8]>,
    next: u8,
}

/// The first word of a line, and what is left after the space after it; none where there is no space.
pub fn cut(line: &[u8]) -> (&[u8], Option<&[u8]>)
    ensures { words line.now ≡ result.0.now ∷ left_in result.1 }
{
    match line.iter().position(|c| *c == b' ') {
        Some(n) => (&line[..n], Some(&line[n + 1..])),
        None => (line, None),
    }
}

impl<'a> Reader<'a> {
    /// Reads a line from its first word on, which has the given number.
    pub fn new(line: &'a [u8], number: u8) -> Reader<'a>
        ensures { ahead result ≡ (words line.now, number) }
    {
        Reader {
            rest: Some(line),
            next: number,
        }
    }

    // The next word, or None at the line's end.
    fn next_word(&mut self) -> Option<&'a [u8]>
        ensures word { option_map (λ x. x.now) result ≡ upcoming (ahead self.old) }
        ensures ahead { ahead self.new ≡ past (ahead self.old) }
    {
        self.next = self.next.saturating_add(1);
        let (word, rest) = cut(self.rest?);
        self.rest = rest;
        Some(word)
    }

    /// Reads the next word: the word with its number, taken for a word of the sort, or None at the line's end.
    pub fn take<S: FnOnce(&'a [u8]) -> Word<'a> + Drop>(&mut self, sort: S) -> Option<Placed<'a>>
        requires { S.IsAlwaysCallable sort }
        ensures word { TakenAs (S.post sort) (ahead self.old) result }
        ensures ahead { ahead self.new ≡ past (ahead self.old) }
    {
        let at = self.next;
        let word = sort(self.next_word()?);
        Some(Placed { word, at })
    }

    /// Reads the next word: what it says, taken for a word of the sort. It is at fault where it is missing or does not read.
    pub fn read<T, S: FnOnce(&'a [u8]) -> Word<'a> + Drop, R: FnOnce(Placed<'a>) -> Option<T>>(
        &mut self,
        sort: S,
        reading: R,
    ) -> Result<T, Fault>
        requires sort { S.IsAlwaysCallable sort }
        requires reading { R.IsAlwaysCallable reading }
        ensures value { (rule : List ℕ → Option T) → Follows (S.post sort) (R.post reading) self.old.next rule → result ≡ by rule (upcoming (ahead self.old)) self.old.next }
        ensures ahead { ahead self.new ≡ past (ahead self.old) }
    {
        let at = self.next;
        self.take(sort)
            .and_then(reading)
            .ok_or(Fault::wrong_form(at))
    }

    /// Reads the next word, taken for a command, if there is one.
    pub fn command(&mut self) -> Option<Word<'a>>
        ensures word { text_of command_text result ≡ upcoming (ahead self.old) }
        ensures ahead { ahead self.new ≡ past (ahead self.old) }
    {
        self.take(Word::Command).map(|placed| placed.word)
    }

    /// Reads the next word as a number without a sign, of 1 to 10 digits. It is at fault where it is missing or no such number.
    pub fn unsigned(&mut self) -> Result<u64, Fault>
        ensures value { result ≡ unsigned_in (ahead self.old) }
        ensures ahead { ahead self.new ≡ past (ahead self.old) }
    {
        self.read(Word::Number, Placed::number)
    }

    /// The next word with its number, taken for a field's tag and not yet read, or None at the line's end.
    pub fn next_tag(&self) -> Option<Placed<'a>>
        ensures word { text_of tag_text (option_map (λ p. p.word) result) ≡ upcoming (ahead self.now) }
        ensures at { IfSome result (λ p. p.at ≡ (ahead self.now).1) }
    {
        let (word, _) = cut(self.rest?);
        Some(Placed {
            word: Word::Tag(word),
            at: self.next,
        })
    }

    /// Goes past the next word, if there is one.
    pub fn skip(&mut self)
        ensures { ahead self.new ≡ past (ahead self.old) }
    {
        let _ = self.next_word();
    }

    // What was read, where no word is after it.
    fn alone<T: Drop>(&self, said: Result<T, Fault>) -> Result<T, Fault>
        ensures { result ≡ alone said (ahead self.now) }
    {
        let said = said?;
        self.end()?;
        Ok(said)
    }

    /// Reads a number without a sign, of 1 to 10 digits, and no word after it. The first word that is missing, surplus or of wrong
    /// form is at fault.
    #[tactic(auto, unfolding(crate::specs::Readings::only_unsigned))]
    pub fn only_unsigned(&mut self) -> Result<u64, Fault>
        ensures { result ≡ only_unsigned (ahead self.old) }
    {
        let said = self.unsigned();
        self.alone(said)
    }

    /// Reads a number of 1 to 10 digits after a sign or none, and no word after it. The first word that is missing, surplus or of
    /// wrong form is at fault.
    #[tactic(auto, unfolding(crate::specs::Readings::only_signed))]
    pub fn only_signed(&mut self) -> Result<i64, Fault>
        ensures { result ≡ only_signed (ahead self.old) }
    {
        let said = self.read(Word::Number, Placed::signed);
        self.alone(said)
    }

    /// Reads a hexadecimal number of 1 to 8 digits, and no word after it. The first word that is not as it is due
    /// is at fault.
    #[tactic(auto, unfolding(crate::specs::Readings::only_hexadecimal))]
    pub fn only_pattern(&mut self) -> Result<u64, Fault>
        ensures { result ≡ only_hexadecimal (ahead self.old) }
    {
        let said = self.read(Word::Hexadecimal, Placed::number);
        self.alone(said)
    }

    /// Tells whether all words are read. A word that is left is at fault.
    #[tactic(auto, using(crate::proofs::Left::line_left))]
    pub fn end(&self) -> Result<(), Fault>
        ensures { result ≡ end_in (ahead self.now) }
    {
        match self.rest {
            Some(_) => Err(Fault::wrong_form(self.next)),
            None => Ok(()),
        }
    }
}
