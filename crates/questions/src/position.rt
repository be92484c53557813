//! The answer to the question for the position.
ghost use Rattle.std.specs.Prelude.{◌≡◌, ◌≤◌, IfOk};
ghost use Rattle.replies.specs.Replies.{answered};
ghost use Rattle.questions.specs.Questions.{position_text};

use faults::Fault;
use replies::{Reply, check_room};

/// Answers with the counter in steps, the levels of the inputs and the outputs. A buffer of fewer than 80 bytes is refused.
pub fn answer_position(
    out: &mut [u8],
    address: u8,
    counter: i32,
    levels: u8,
    outputs: u8,
) -> Result<usize, Fault>
    ensures length { IfOk result (λ n. n ≤ 80) }
    ensures answer { (result, out.new) ≡ answered (position_text address counter levels outputs) out.old }
{
    check_room(out)?;
    let mut reply = Reply::begin(out, address, b"EP ");
    reply.signed(counter, 7);
    reply.text(b" ");
    reply.hexadecimal2(levels);
    reply.text(b" ");
    reply.hexadecimal2(outputs);
    Ok(reply.finish())
}
