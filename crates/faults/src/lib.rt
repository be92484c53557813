//! Why a line or a call is refused, and where.
#![tactic(auto)]

ghost use Rattle.std.specs.Prelude.{◌≡◌};
ghost use Rattle.faults.specs.Reasons.{cause_reason};
ghost use Rattle.faults.specs.Faults.{number_of, name_of, word_of, stopped, bad_line, unknown_command, wrong_form, is_busy, start_past_plateau, past_limit, no_such_phase, no_sequence, sequence_exists, memory_full, past_reserve, wrong_memory, short_reply, wrong_address};

use std::fmt;

/// The cause of a refusal, with the number that the module tells for it: up to 10 of a line or a run, from 101 on of a call.
#[derive(Clone, Copy, PartialEq, Debug)]
pub enum Cause {
    WrongForm = 0,
    PastLimit = 1,
    NoSuchPhase = 2,
    NoSequence = 3,
    SequenceExists = 4,
    MemoryFull = 5,
    UnknownCommand = 6,
    Busy = 7,
    BadLine = 8,
    StartPastPlateau = 9,
    TooManyOpen = 10,
    WrongMemory = 101,
    ShortReply = 102,
    WrongAddress = 103,
}

/// Where a call, a line or a run is stopped, in the order in which a line passes the places.
#[derive(Clone, Copy, PartialEq, Debug)]
pub enum Place {
    Caller,
    Receiver,
    Reader,
    State,
    Values,
    Store,
    Run,
}

/// A refusal: the cause, the place, and the number of the word at fault or missing, if there is one. Words are counted from 1.
#[derive(Clone, Copy, PartialEq, Debug)]
pub struct Fault {
    pub cause: Cause,
    pub place: Place,
    pub word: Option<u8>,
}

impl Cause {
    /// The number that the module tells for this cause.
    pub fn number(self) -> u8
        ensures { result ≡ number_of self }
    {
        self as u8
    }

    // The cause in plain words, no word being named.
    fn reason(self) -> &'static str
        ensures { result.now ≡ cause_reason self }
    {
        match self {
            Cause::WrongForm => "a word is missing, surplus or of wrong form",
            Cause::PastLimit => "a value is past its limit",
            Cause::NoSuchPhase => "there is no such phase",
            Cause::NoSequence => "there is no such sequence",
            Cause::SequenceExists => "there is such a sequence already",
            Cause::MemoryFull => "the phase memory has no room for the phases",
            Cause::UnknownCommand => "the first word names no command",
            Cause::Busy => "the module is busy",
            Cause::BadLine => "the line has more than 64 characters, or a damaged one",
            Cause::StartPastPlateau => "the start speed would be above the plateau speed",
            Cause::TooManyOpen => "a fifth sub-sequence would be open",
            Cause::WrongMemory => "the phase memory has not 414 records",
            Cause::ShortReply => "the reply buffer has under 80 bytes",
            Cause::WrongAddress => "the address is above 63",
        }
    }

    fn at(self, place: Place, word: Option<u8>) -> Fault
        ensures { result ≡ stopped self place word }
    {
        Fault {
            cause: self,
            place,
            word,
        }
    }
}

impl Place {
    /// The name of the place.
    pub fn name(self) -> &'static str
        ensures { result.now ≡ name_of self }
    {
        match self {
            Place::Caller => "caller",
            Place::Receiver => "receiver",
            Place::Reader => "reader",
            Place::State => "state",
            Place::Values => "values",
            Place::Store => "store",
            Place::Run => "run",
        }
    }
}

impl fmt::Display for Cause {
    ghost use Rattle.std.specs.Prelude.{Some};
    ghost use Rattle.faults.specs.Reasons.{cause_reason};

    ghost output = { λ cause. Some (cause_reason cause) };

    /// Writes the cause in plain words.
    fn fmt<W: fmt::Write>(&self, f: &mut fmt::Formatter<W>) -> fmt::Result {
        f.pad(self.reason())
    }
}

impl fmt::Display for Place {
    ghost use Rattle.std.specs.Prelude.{Some};
    ghost use Rattle.faults.specs.Faults.{name_of};

    ghost output = { λ place. Some (name_of place) };

    /// Writes the name of the place.
    fn fmt<W: fmt::Write>(&self, f: &mut fmt::Formatter<W>) -> fmt::Result {
        f.pad(self.name())
    }
}

impl fmt::Display for Fault {
    ghost use Rattle.std.specs.Prelude.{Some};
    ghost use Rattle.faults.specs.Reasons.{reason_of};

    ghost output = { λ fault. Some (reason_of fault) };

    /// Writes the reason of the refusal in plain words, with the number of the word at fault where that tells more.
    fn fmt<W: fmt::Write>(&self, f: &mut fmt::Formatter<W>) -> fmt::Result {
        let place = self.place;
        match (self.cause, self.word) {
            (Cause::WrongForm, Some(1)) => write!(f, "a question cannot be a broadcast"),
            (Cause::WrongForm, Some(word)) => {
                write!(f, "word {word} is missing, surplus or of wrong form")
            }
            (Cause::PastLimit, Some(word)) => {
                write!(f, "the value of word {word} is past its limit")
            }
            (Cause::NoSuchPhase, Some(word)) if place == Place::Store => write!(
                f,
                "the phase of word {word} is above the sequence's reserve"
            ),
            (Cause::NoSuchPhase, Some(word)) => {
                write!(f, "word {word} numbers no phase of any sequence")
            }
            (Cause::NoSequence, Some(word)) => {
                write!(f, "there is no sequence of the number in word {word}")
            }
            (Cause::SequenceExists, Some(word)) => write!(
                f,
                "there is a sequence of the number in word {word} already"
            ),
            (Cause::MemoryFull, Some(word)) => write!(
                f,
                "the phase memory has no room for the phases of word {word}"
            ),
            (cause, _) => write!(f, "{cause}"),
        }
    }
}

// Each refusal with its cause, its place and its word.
impl Fault {
    /// The number of the word at fault or missing, and 0 where the fault has no word.
    pub fn word_number(self) -> u8
        ensures { result ≡ word_of self.word }
    {
        self.word.unwrap_or(0)
    }

    /// The line has over 64 characters, or one of them is damaged.
    pub fn bad_line() -> Fault
        ensures { result ≡ bad_line }
    {
        Cause::BadLine.at(Place::Receiver, None)
    }

    /// The first word names no command.
    pub fn unknown_command() -> Fault
        ensures { result ≡ unknown_command }
    {
        Cause::UnknownCommand.at(Place::Reader, Some(1))
    }

    /// Word `at` is not there, is one too many, or does not read as it is due.
    pub fn wrong_form(at: u8) -> Fault
        ensures { result ≡ wrong_form at }
    {
        Cause::WrongForm.at(Place::Reader, Some(at))
    }

    /// The module is busy, and the command is not taken then.
    pub fn busy() -> Fault
        ensures { result ≡ is_busy }
    {
        Cause::Busy.at(Place::State, None)
    }

    /// The start speed in word 2 would pass the plateau speed.
    pub fn start_past_plateau() -> Fault
        ensures { result ≡ start_past_plateau }
    {
        Cause::StartPastPlateau.at(Place::Values, Some(2))
    }

    /// The value of word `at` is past its limit.
    pub fn past_limit(at: u8) -> Fault
        ensures { result ≡ past_limit at }
    {
        Cause::PastLimit.at(Place::Values, Some(at))
    }

    /// Word `at` numbers no phase of any sequence.
    pub fn no_such_phase(at: u8) -> Fault
        ensures { result ≡ no_such_phase at }
    {
        Cause::NoSuchPhase.at(Place::Values, Some(at))
    }

    /// There is no sequence of the number in word 2.
    pub fn no_sequence() -> Fault
        ensures { result ≡ no_sequence }
    {
        Cause::NoSequence.at(Place::Store, Some(2))
    }

    /// There is a sequence of the number in word 2 already.
    pub fn sequence_exists() -> Fault
        ensures { result ≡ sequence_exists }
    {
        Cause::SequenceExists.at(Place::Store, Some(2))
    }

    /// The phases already reserved and those of word 3 pass 414.
    pub fn memory_full() -> Fault
        ensures { result ≡ memory_full }
    {
        Cause::MemoryFull.at(Place::Store, Some(3))
    }

    /// The phase of word 3 is above the sequence's reserve.
    pub fn past_reserve() -> Fault
        ensures { result ≡ past_reserve }
    {
        Cause::NoSuchPhase.at(Place::Store, Some(3))
    }

    /// The phase memory has not 414 records.
    pub fn wrong_memory() -> Fault
        ensures { result ≡ wrong_memory }
    {
        Cause::WrongMemory.at(Place::Caller, None)
    }

    /// The reply buffer has under 80 bytes.
    pub fn short_reply() -> Fault
        ensures { result ≡ short_reply }
    {
        Cause::ShortReply.at(Place::Caller, None)
    }

    /// The address is above 63.
    pub fn wrong_address() -> Fault
        ensures { result ≡ wrong_address }
    {
        Cause::WrongAddress.at(Place::Caller, None)
    }
}
