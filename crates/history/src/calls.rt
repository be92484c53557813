//! The calls of a history, each handed the first records of the phase memory.
ghost use Rattle.std.specs.Prelude.{◌≡◌, length};
ghost use Rattle.law.specs.Events.{event, asked_by, handed, with_room, received as arrived};
ghost use Rattle.module.specs.Views.{state_in, state_after, answer_to};
ghost use Rattle.history.specs.Histories.{shown};

use crate::answer::{Answer, Reply};
use faults::Fault;
use law::{Action, Call};
use lines::Character;
use module::Module;
use outputs::StepOutput;
use phases::Phase;
use replies::REPLY_ROOM;

// The character call with a reply buffer of `room` bytes.
fn character<O: StepOutput>(
    device: &mut Module<O>,
    character: Character,
    room: usize,
    memory: &mut [Phase],
) -> Result<Answer, Fault>
    ensures state { state_in O.CYCLE device.new memory.new ≡ state_after O.CYCLE device.old memory.old (handed (length memory.old) (with_room room (arrived character.byte character.damaged))) }
    ensures shown { shown result ≡ answer_to O.CYCLE device.old memory.old (handed (length memory.old) (with_room room (arrived character.byte character.damaged))) }
{
    let mut bytes = [0u8; REPLY_ROOM];
    let length = device.character(character, memory, &mut bytes[0..room.min(REPLY_ROOM)])?;
    Ok(Answer::Reply(Reply { length, bytes }))
}

// Does what is asked, handed these records.
fn hand<O: StepOutput>(
    device: &mut Module<O>,
    action: Action,
    memory: &mut [Phase],
) -> Result<Answer, Fault>
    ensures state { state_in O.CYCLE device.new memory.new ≡ state_after O.CYCLE device.old memory.old (handed (length memory.old) (asked_by action)) }
    ensures shown { shown result ≡ answer_to O.CYCLE device.old memory.old (handed (length memory.old) (asked_by action)) }
{
    match action {
        Action::Character {
            character: received,
            room,
        } => character(device, received, room, memory),
        Action::Tick => {
            let (step, busy) = device.tick(memory)?;
            Ok(Answer::Ticked(step, busy))
        }
        Action::Levels(value) => {
            device.set_levels(value, memory)?;
            Ok(Answer::Done)
        }
        Action::PowerUp => {
            device.power_up(memory)?;
            Ok(Answer::Done)
        }
    }
}

// Makes one call, handed as many of the records as it says.
pub(crate) fn perform<O: StepOutput>(
    device: &mut Module<O>,
    call: Call,
    memory: &mut [Phase],
) -> Result<Answer, Fault>
    requires { length memory.old ≡ 414 }
    ensures state { state_in O.CYCLE device.new memory.new ≡ state_after O.CYCLE device.old memory.old (event call) }
    ensures shown { shown result ≡ answer_to O.CYCLE device.old memory.old (event call) }
{
    let Call { lent, action } = call;
    if lent > memory.len() {
        return Err(Fault::wrong_memory());
    }
    hand(device, action, &mut memory[..lent])
}
