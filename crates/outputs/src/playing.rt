//! Requests played on step outputs.
ghost use Rattle.std.specs.Prelude.{◌≡◌, ◌≤◌, pos, ◌+ℤ◌, length, take, is_ok, OnOk, OnErr};
ghost use Rattle.outputs.specs.DryRuns.{dry_cycle, dry_meaning, dry_number};
ghost use Rattle.outputs.specs.Playing.{AnswerAlike, Played, has_room};
ghost use Rattle.outputs.specs.Pulses.{pulse_cycle, pulse_meaning};
ghost use Rattle.outputs.specs.Requests.{displacement};
ghost use Rattle.steps.specs.Wrap.{modulo24, wrapped24};

use crate::dry_run::DryRunOutput;
use crate::pulse::PulseOutput;
use crate::request::{Answer, Request};
use crate::step_output::StepOutput;
use std::fmt;

/// A room that is lent for answers is shorter than the list of requests.
#[derive(Clone, Copy, PartialEq, Eq, Debug)]
pub struct NoRoom;

impl fmt::Display for NoRoom {
    ghost use Rattle.std.specs.Prelude.{Some};
    ghost use Rattle.outputs.specs.Playing.{no_room_text};

    ghost output = { λ _. Some no_room_text };

    fn fmt<W: fmt::Write>(&self, f: &mut fmt::Formatter<W>) -> fmt::Result {
        write!(f, "a room for answers is shorter than the list of requests")
    }
}

/// Makes requests of an output, from the first to the last, and puts the answers to the front of the room, one to each request. The
/// room is at least as long as the list; what is beyond the answers stays. The place goes one further with each step that is made.
pub fn play<O: StepOutput>(output: &mut O, requests: &[Request], room: &mut [Answer])
    requires { length requests.now ≤ length room.old }
    ensures played { Played O.StepOutput.CYCLE requests.now (O.StepOutput.meaning output.old) (O.StepOutput.meaning output.new) room.old room.new }
    ensures place { pos (O.StepOutput.meaning output.new).place
        ≡ modulo24 (pos (O.StepOutput.meaning output.old).place +ℤ displacement requests.now (take (length requests.now) room.new)) }
{
    for (i, request) in requests.iter().enumerate() {
        room[i] = request.make(output);
    }
}

// Whether a list of so many requests fits into two rooms of these lengths.
fn has_room(requests: usize, dry_room: usize, pulse_room: usize) -> bool
    ensures { result ≡ has_room requests dry_room pulse_room }
{
    requests <= dry_room && requests <= pulse_room
}

/// Plays a list of requests on a dry-run output and on a pulse output. The answers of each go to the front of the room that is lent
/// for them; what is beyond them stays. Refused, with nothing changed, where a room is shorter than the list. Outputs that begin with
/// equal place and power answer alike, and end with equal place and power. Of the pulse counts it is said which place they give.
pub fn play_both(
    dry: &mut DryRunOutput,
    pulse: &mut PulseOutput,
    requests: &[Request],
    dry_room: &mut [Answer],
    pulse_room: &mut [Answer],
) -> Result<(), NoRoom>
    ensures taken { is_ok result ≡ has_room (length requests.now) (length dry_room.old) (length pulse_room.old) }
    ensures refused { OnErr result ((dry.new ≡ dry.old) × (pulse.new ≡ pulse.old) × (dry_room.new ≡ dry_room.old) × (pulse_room.new ≡ pulse_room.old)) }
    ensures dry { OnOk result (Played dry_cycle requests.now (dry_meaning dry.old) (dry_meaning dry.new) dry_room.old dry_room.new) }
    ensures pulse { OnOk result (Played pulse_cycle requests.now (pulse_meaning pulse.old) (pulse_meaning pulse.new) pulse_room.old pulse_room.new) }

    // Equal place and power at the beginning is all that this asks.
    ensures alike { OnOk result (dry_meaning dry.old ≡ pulse_meaning pulse.old
        → AnswerAlike requests.now (dry_meaning dry.new) (pulse_meaning pulse.new) dry_room.new pulse_room.new) }

    // The steps that were made lead from the number before to the number after.
    ensures number { OnOk result (dry_number dry.new
        ≡ wrapped24 (dry_number dry.old +ℤ displacement requests.now (take (length requests.now) dry_room.new))) }
{
    if !has_room(requests.len(), dry_room.len(), pulse_room.len()) {
        return Err(NoRoom);
    }
    play(dry, requests, dry_room);
    play(pulse, requests, pulse_room);
    Ok(())
}
