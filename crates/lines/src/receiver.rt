//! The receiver: gathers characters until a line ends.
ghost use Rattle.std.specs.Prelude.{◌≡◌, List, []};
ghost use Rattle.std.specs.Option.{option_map};
ghost use Rattle.lines.specs.Characters.{Character as Arrival, unfinished};
ghost use Rattle.lines.specs.Lines.{kept, kept_of, ended, going};

use crate::character::Character;
use crate::line::Line;
use std::mem;

const CARRIAGE_RETURN: u8 = 0x0D;

const LINE_FEED: u8 = 0x0A;

/// The receiver of a module, with the line that has not ended yet.
#[derive(Clone, Copy)]
pub struct Receiver {
    line: Line,
}

impl Receiver {
    /// A receiver that holds no character.
    pub fn new() -> Receiver
        ensures { kept result.line ≡ kept_of [] }
    {
        Receiver { line: Line::new() }
    }

    /// The characters of the unfinished line.
    pub fn held(&self) -> &Line
        ensures { result.now ≡ self.now.line }
    {
        &self.line
    }

    /// Takes a character. An undamaged 0Dh ends the line, which is the answer, and the next line begins; an undamaged 0Ah is skipped;
    /// every other character belongs to the line.
    pub fn receive(&mut self, character: Character) -> Option<Line>
        ensures line { option_map kept result ≡ ended (kept self.old.line) (character.byte, character.damaged) }
        ensures rest { kept self.new.line ≡ going (kept self.old.line) (character.byte, character.damaged) }
        ensures list { (cs : List Arrival) → kept self.old.line ≡ kept_of cs → kept self.new.line ≡ kept_of (unfinished cs (character.byte, character.damaged)) }
    {
        match character {
            Character {
                byte: CARRIAGE_RETURN,
                damaged: false,
            } => Some(mem::replace(&mut self.line, Line::new())),
            Character {
                byte: LINE_FEED,
                damaged: false,
            } => None,
            _ => {
                self.line.take(character);
                None
            }
        }
    }
}
