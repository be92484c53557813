//! The answer to the question for the version.
ghost use Rattle.std.specs.Prelude.{◌≡◌, ◌≤◌, IfOk};
ghost use Rattle.replies.specs.Replies.{answered};
ghost use Rattle.questions.specs.Questions.{version_text};

use faults::Fault;
use replies::{Reply, check_room};

/// Answers with the version 10 and the cycle of the step output in places. A buffer of fewer than 80 bytes is refused.
pub fn answer_version(out: &mut [u8], address: u8, cycle: u32) -> Result<usize, Fault>
    ensures length { IfOk result (λ n. n ≤ 80) }
    ensures answer { (result, out.new) ≡ answered (version_text address cycle) out.old }
{
    check_room(out)?;
    let mut reply = Reply::begin(out, address, b"EV 10 ");
    reply.digits(cycle, 8);
    Ok(reply.finish())
}
