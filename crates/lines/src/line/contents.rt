//! What a line keeps of its characters, and what it says.
ghost use Rattle.std.specs.Prelude.{◌≡◌, List, [], ◌∷◌, ◌++◌};
ghost use Rattle.std.specs.Result.{result_map_both};
ghost use Rattle.lines.specs.Characters.{Character as Arrival, addressee_of, received};
ghost use Rattle.lines.specs.Lines.{kept, kept_of, taken, is_own_in, is_broadcast_in, addressee_in, text_in};

use super::{Addressee, CAPACITY, Line};
use crate::character::Character;
use faults::Fault;

impl Line {
    // The line of no characters.
    pub(crate) fn new() -> Line
        ensures { kept result ≡ kept_of [] }
    {
        Line {
            bytes: [0; CAPACITY],
            len: 0,
            first_damaged: false,
            second_damaged: false,
            refused: false,
        }
    }

    // Takes one character more.
    pub(crate) fn take(&mut self, character: Character)
        ensures { kept self.new ≡ taken (kept self.old) (character.byte, character.damaged) }
    {
        let Character { byte, damaged } = character;
        let at = self.len;
        self.first_damaged = self.first_damaged || damaged && at == 0;
        self.second_damaged = self.second_damaged || damaged && at == 1;
        self.refused = self.refused || damaged || at >= CAPACITY;
        if at < CAPACITY {
            self.bytes[at] = byte;
            self.len = at + 1;
        }
    }

    /// The characters that are kept, damaged or not: at most the first 64.
    pub fn characters(&self) -> &[u8]
        ensures { result.now ≡ (kept self.now).characters }
    {
        &self.bytes[0..self.len]
    }

    fn is_own(&self, address: u8) -> bool
        ensures { result ≡ is_own_in address (kept self.now) }
    {
        !self.first_damaged
            && !self.second_damaged
            && self
                .characters()
                .starts_with(&[b'0' + address / 10, b'0' + address % 10])
    }

    fn is_broadcast(&self) -> bool
        ensures { result ≡ is_broadcast_in (kept self.now) }
    {
        self.characters()
            .first()
            .is_some_and(u8::is_ascii_uppercase)
            && !self.first_damaged
    }

    /// Whom the line is for, at a module of the address. An own line begins with the two digits of the address, a broadcast with a
    /// capital letter, and none of these is damaged.
    pub fn addressee(&self, address: u8) -> Addressee
        ensures value { result ≡ addressee_in address (kept self.now) }
        ensures list { (cs : List Arrival) → kept self.now ≡ kept_of cs → result ≡ addressee_of address cs }
    {
        if self.is_own(address) {
            Addressee::Own
        } else if self.is_broadcast() {
            Addressee::Broadcast
        } else {
            Addressee::Stranger
        }
    }

    /// The line after its first `from` characters. A line that has over 64 characters or a damaged one is refused.
    pub fn text(&self, from: usize) -> Result<&[u8], Fault>
        ensures value { result_map_both (λ x. x.now) (λ f. f) result ≡ text_in from (kept self.now) }
        ensures list { (cs : List Arrival) → kept self.now ≡ kept_of cs → result_map_both (λ x. x.now) (λ f. f) result ≡ received from cs }
    {
        if self.refused {
            return Err(Fault::bad_line());
        }
        let kept = self.characters();
        Ok(&kept[from.min(kept.len())..])
    }
}
