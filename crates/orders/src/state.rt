//! The row state: a busy module takes few commands.
ghost use Rattle.std.specs.Prelude.{◌≡◌};
ghost use Rattle.orders.specs.State.{when_busy, state_row};

use crate::command::Command;
use faults::Fault;

fn goes_when_busy(command: Command) -> bool
    ensures { result ≡ when_busy command }
{
    matches!(
        command,
        Command::SlowStop
            | Command::PowerOn
            | Command::PowerOff
            | Command::SetOutputs(_)
            | Command::Restart
            | Command::ReadParameters
            | Command::ReadPosition
            | Command::ReadVersion
            | Command::ReadFault
    )
}

pub(crate) fn check_state(command: Command, busy: bool) -> Result<(), Fault>
    ensures { result ≡ state_row busy command }
{
    if busy && !goes_when_busy(command) {
        return Err(Fault::busy());
    }
    Ok(())
}
