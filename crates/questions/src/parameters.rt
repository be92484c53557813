//! The answer to the question for the parameters of a movement.
ghost use Rattle.std.specs.Prelude.{◌≡◌, ◌+◌, ◌≤◌, IfOk};
ghost use Rattle.motion.specs.Values.{values};
ghost use Rattle.motion.specs.Settings.{settings as settings_of};
ghost use Rattle.replies.specs.Replies.{Room, Wrote, answered};
ghost use Rattle.questions.specs.Questions.{speeds_words, distance_words, parameters_text};

use faults::Fault;
use motion::{Parameters, Settings};
use replies::{Reply, check_room};
use steps::Direction;

// Writes the two speeds and the slope in five digits each.
fn write_speeds(reply: &mut Reply, parameters: &Parameters)
    requires { Room reply.old 17 }
    ensures wrote { Wrote reply.old reply.new (speeds_words (values parameters.now)) }
    ensures len { reply.new.len ≡ reply.old.len + 17 }
{
    reply.digits(u32::from(parameters.start_speed()), 5);
    reply.text(b" ");
    reply.digits(u32::from(parameters.plateau_speed()), 5);
    reply.text(b" ");
    reply.digits(u32::from(parameters.slope()), 5);
}

// Writes the distance in six digits, and the direction.
#[tactic(auto, unfolding(crate::specs::Questions::distance_words))]
fn write_distance(reply: &mut Reply, distance: u32, direction: Direction)
    requires { Room reply.old 8 }
    ensures wrote { Wrote reply.old reply.new (distance_words distance direction) }
    ensures len { reply.new.len ≡ reply.old.len + 8 }
{
    reply.digits(distance, 6);
    reply.text(b" ");
    reply.put(direction.sign());
}

/// Answers with the speeds in steps per second, the slope in milliseconds, the distance in steps and the direction.
/// A buffer of fewer than 80 bytes is refused.
pub fn answer_parameters(out: &mut [u8], address: u8, settings: &Settings) -> Result<usize, Fault>
    ensures length { IfOk result (λ n. n ≤ 80) }
    ensures answer { (result, out.new) ≡ answered (parameters_text address (settings_of settings.now)) out.old }
{
    check_room(out)?;
    let mut reply = Reply::begin(out, address, b"EL ");
    write_speeds(&mut reply, &settings.parameters);
    reply.text(b" ");
    write_distance(&mut reply, settings.distance, settings.direction);
    Ok(reply.finish())
}
