//! What a line means to store, whatever the module's state.
ghost use Rattle.std.specs.Prelude.{◌≡◌};
ghost use Rattle.faults.specs.Faults.{and_then};
ghost use Rattle.lines.specs.Lines.{kept};
ghost use Rattle.orders.specs.Reading.{command_after};
ghost use Rattle.orders.specs.Intentions.{intention_of, intended};

use crate::command::Command;
use crate::read::read_from;
use faults::Fault;
use fields::{erase_value, sp_values};
use lines::{Addressee, Line};
use phases::{Phase, Position};

/// What a line does to the phases of the phase memory, if it is accepted.
#[derive(Clone, Copy)]
pub enum Intention {
    /// SP: the record of a phase.
    Write { at: Position, phase: Phase },
    /// SE: a sequence, or all of them.
    Erase(Option<u8>),
}

fn intention_of(command: Command) -> Result<Option<Intention>, Fault>
    ensures { result ≡ intention_of command }
{
    Ok(match command {
        Command::Write(raw) => {
            let (at, phase) = sp_values(raw)?;
            Some(Intention::Write { at, phase })
        }
        Command::Erase(n) => Some(Intention::Erase(erase_value(n)?)),
        _ => None,
    })
}

// What a line that is read from its character `from` on means to store.
fn intention_from(line: &Line, from: usize, broadcast: bool) -> Result<Option<Intention>, Fault>
    ensures { result ≡ and_then (command_after from broadcast (kept line.now)) intention_of }
{
    intention_of(read_from(line, from, broadcast)?)
}

/// What a line means to store at a module of the address, or why its form or its values are refused; none of a stranger's line.
/// The module's state and its phase memory count for nothing.
pub fn intended(line: &Line, address: u8) -> Option<Result<Option<Intention>, Fault>>
    ensures { result ≡ intended address (kept line.now) }
{
    match line.addressee(address) {
        Addressee::Own => Some(intention_from(line, 2, false)),
        Addressee::Broadcast => Some(intention_from(line, 0, true)),
        Addressee::Stranger => None,
    }
}
