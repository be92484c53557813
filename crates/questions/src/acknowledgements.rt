//! The short answers to an order: accepted or refused.
ghost use Rattle.std.specs.Prelude.{◌≡◌, ◌≤◌, IfOk};
ghost use Rattle.replies.specs.Replies.{answered};
ghost use Rattle.questions.specs.Questions.{acknowledged, refused};

use faults::Fault;
use replies::{Reply, check_room};

// Answers with two bytes.
fn answer_short(out: &mut [u8], text: [u8; 2]) -> Result<usize, Fault>
    ensures length { IfOk result (λ n. n ≤ 80) }
    ensures answer { (result, out.new) ≡ answered text out.old }
{
    check_room(out)?;
    let mut reply = Reply::new(out);
    reply.text(&text);
    Ok(reply.len)
}

/// Answers that a line is accepted: 06h 11h. A buffer of fewer than 80 bytes is refused.
#[tactic(auto, unfolding(crate::specs::Questions::acknowledged))]
pub fn acknowledge(out: &mut [u8]) -> Result<usize, Fault>
    ensures length { IfOk result (λ n. n ≤ 80) }
    ensures answer { (result, out.new) ≡ answered acknowledged out.old }
{
    answer_short(out, *b"\x06\x11")
}

/// Answers that a line is refused: 15h 11h. A buffer of fewer than 80 bytes is refused.
#[tactic(auto, unfolding(crate::specs::Questions::refused))]
pub fn refuse(out: &mut [u8]) -> Result<usize, Fault>
    ensures length { IfOk result (λ n. n ≤ 80) }
    ensures answer { (result, out.new) ≡ answered refused out.old }
{
    answer_short(out, *b"\x15\x11")
}
