//! The names of the commands.
ghost use Rattle.std.specs.Prelude.{◌≡◌};
ghost use Rattle.std.specs.Option.{option_and_then};
ghost use Rattle.words.specs.Sorts.{command_text};
ghost use Rattle.orders.specs.Names.{name_of};

use words::Word;

// The name of a command, before the words after it are read.
#[derive(Clone, Copy)]
pub(crate) enum Name {
    StartSpeed,
    PlateauSpeed,
    Slope,
    Distance,
    Forward,
    Back,
    ZeroCounter,
    SetCounter,
    Move,
    MoveToOrigin,
    MoveTo,
    SlowStop,
    PowerOn,
    PowerOff,
    SetOutputs,
    Create,
    Erase,
    Choose,
    Start,
    Write,
    ReadPhase,
    Restart,
    ReadParameters,
    ReadPosition,
    ReadVersion,
    ReadFault,
}

// The command that a word names.
pub(crate) fn name_of(word: Word) -> Option<Name>
    ensures { result ≡ option_and_then name_of (command_text word.entry) }
{
    match word {
        Word::Command(b"VN") => Some(Name::StartSpeed),
        Word::Command(b"VX") => Some(Name::PlateauSpeed),
        Word::Command(b"TR") => Some(Name::Slope),
        Word::Command(b"DR") => Some(Name::Distance),
        Word::Command(b"D+") => Some(Name::Forward),
        Word::Command(b"D-") => Some(Name::Back),
        Word::Command(b"DI") => Some(Name::ZeroCounter),
        Word::Command(b"DP") => Some(Name::SetCounter),
        Word::Command(b"GO") => Some(Name::Move),
        Word::Command(b"GH") => Some(Name::MoveToOrigin),
        Word::Command(b"GA") => Some(Name::MoveTo),
        Word::Command(b"GE") => Some(Name::SlowStop),
        Word::Command(b"GM") => Some(Name::PowerOn),
        Word::Command(b"GR") => Some(Name::PowerOff),
        Word::Command(b"GL") => Some(Name::SetOutputs),
        Word::Command(b"SN") => Some(Name::Create),
        Word::Command(b"SE") => Some(Name::Erase),
        Word::Command(b"SD") => Some(Name::Choose),
        Word::Command(b"SS") => Some(Name::Start),
        Word::Command(b"SP") => Some(Name::Write),
        Word::Command(b"RS") => Some(Name::ReadPhase),
        Word::Command(b"MR") => Some(Name::Restart),
        Word::Command(b"RL") => Some(Name::ReadParameters),
        Word::Command(b"RP") => Some(Name::ReadPosition),
        Word::Command(b"RV") => Some(Name::ReadVersion),
        Word::Command(b"RX") => Some(Name::ReadFault),
        _ => None,
    }
}
