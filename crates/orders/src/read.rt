//! Reads a line into a command.
ghost use Rattle.std.specs.Prelude.{◌≡◌};
ghost use Rattle.lines.specs.Lines.{kept};
ghost use Rattle.words.specs.Left.{ahead};
ghost use Rattle.words.specs.Words.{words, past};
ghost use Rattle.orders.specs.Reading.{is_question, known, asked, alone as alone_in, raw_position as position_in, arguments as arguments_in, read_from, command_after};

use crate::command::Command;
use crate::names::{Name, name_of};
use faults::Fault;
use fields::{RawPosition, read_position, read_sp};
use lines::Line;
use words::Reader;

impl Name {
    fn is_question(self) -> bool
        ensures { result ≡ is_question self }
    {
        matches!(
            self,
            Name::ReadParameters
                | Name::ReadPosition
                | Name::ReadPhase
                | Name::ReadVersion
                | Name::ReadFault
        )
    }
}

// The first word as a command.
fn command_word(reader: &mut Reader) -> Result<Name, Fault>
    ensures value { result ≡ known (ahead reader.old) }
    ensures ahead { ahead reader.new ≡ past (ahead reader.old) }
{
    reader
        .command()
        .and_then(name_of)
        .ok_or(Fault::unknown_command())
}

// A question as a broadcast is refused.
fn ask(name: Name, broadcast: bool) -> Result<Name, Fault>
    ensures { result ≡ asked broadcast name }
{
    if broadcast && name.is_question() {
        return Err(Fault::wrong_form(1));
    }
    Ok(name)
}

// A command with no word after it.
fn alone(reader: &Reader, command: Command) -> Result<Command, Fault>
    ensures { result ≡ alone_in command (ahead reader.now) }
{
    reader.end()?;
    Ok(command)
}

// A sequence and a phase of it, or how many it reserves, and no word after them.
fn position(reader: &mut Reader) -> Result<RawPosition, Fault>
    ensures { result ≡ position_in (ahead reader.old) }
{
    let position = read_position(reader)?;
    reader.end()?;
    Ok(position)
}

// The words after the command.
fn arguments(reader: &mut Reader, name: Name) -> Result<Command, Fault>
    ensures { result ≡ arguments_in name (ahead reader.old) }
{
    match name {
        Name::StartSpeed => Ok(Command::StartSpeed(reader.only_unsigned()?)),
        Name::PlateauSpeed => Ok(Command::PlateauSpeed(reader.only_unsigned()?)),
        Name::Slope => Ok(Command::Slope(reader.only_unsigned()?)),
        Name::Distance => Ok(Command::Distance(reader.only_unsigned()?)),
        Name::Forward => alone(reader, Command::Forward),
        Name::Back => alone(reader, Command::Back),
        Name::ZeroCounter => alone(reader, Command::ZeroCounter),
        Name::SetCounter => Ok(Command::SetCounter(reader.only_signed()?)),
        Name::Move => alone(reader, Command::Move),
        Name::MoveToOrigin => alone(reader, Command::MoveToOrigin),
        Name::MoveTo => Ok(Command::MoveTo(reader.only_signed()?)),
        Name::SlowStop => alone(reader, Command::SlowStop),
        Name::PowerOn => alone(reader, Command::PowerOn),
        Name::PowerOff => alone(reader, Command::PowerOff),
        Name::SetOutputs => Ok(Command::SetOutputs(reader.only_pattern()?)),
        Name::Create => Ok(Command::Create(position(reader)?)),
        Name::Erase => Ok(Command::Erase(reader.only_unsigned()?)),
        Name::Choose => Ok(Command::Choose(reader.only_unsigned()?)),
        Name::Start => Ok(Command::Start(reader.only_unsigned()?)),
        Name::Write => Ok(Command::Write(read_sp(reader)?)),
        Name::ReadPhase => Ok(Command::ReadPhase(position(reader)?)),
        Name::Restart => alone(reader, Command::Restart),
        Name::ReadParameters => alone(reader, Command::ReadParameters),
        Name::ReadPosition => alone(reader, Command::ReadPosition),
        Name::ReadVersion => alone(reader, Command::ReadVersion),
        Name::ReadFault => alone(reader, Command::ReadFault),
    }
}

// The command of a text, which is a line after its address, or a broadcast.
#[tactic(auto, unfolding(crate::specs::Reading::read_from))]
fn read_command(text: &[u8], broadcast: bool) -> Result<Command, Fault>
    ensures { result ≡ read_from broadcast (words text.now) }
{
    let mut reader = Reader::new(text, 1);
    let name = command_word(&mut reader)?;
    let name = ask(name, broadcast)?;
    arguments(&mut reader, name)
}

// The command of a line that is read from its character `from` on.
#[tactic(auto, unfolding(crate::specs::Reading::command_after))]
pub(crate) fn read_from(line: &Line, from: usize, broadcast: bool) -> Result<Command, Fault>
    ensures { result ≡ command_after from broadcast (kept line.now) }
{
    read_command(line.text(from)?, broadcast)
}
