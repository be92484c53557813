//! The answer to the question for the fault last kept.
ghost use Rattle.std.specs.Prelude.{◌≡◌, ◌+◌, ◌≤◌, IfOk};
ghost use Rattle.replies.specs.Replies.{Room, Wrote, answered};
ghost use Rattle.questions.specs.Questions.{digits_in, fault_word, fault_text};

use faults::Fault;
use replies::{Reply, check_room};

// The number of decimal digits of a byte.
fn digits_in(number: u8) -> usize
    ensures count { result ≡ digits_in number }
    ensures few { result ≤ 3 }
{
    match number {
        0..=9 => 1,
        10..=99 => 2,
        100.. => 3,
    }
}

// Writes N for no fault, else the number of its cause.
#[tactic(auto, unfolding(crate::specs::Questions::fault_word))]
fn write_cause(reply: &mut Reply, fault: Option<Fault>)
    requires { Room reply.old 3 }
    ensures wrote { Wrote reply.old reply.new (fault_word fault) }
    ensures len { reply.new.len ≤ reply.old.len + 3 }
{
    match fault {
        None => reply.text(b"N"),
        Some(fault) => {
            let number = fault.cause.number();
            reply.digits(u32::from(number), digits_in(number));
        }
    }
}

/// Answers with the number of the fault's cause, or N for none. A buffer of fewer than 80 bytes is refused.
pub fn answer_fault(out: &mut [u8], address: u8, fault: Option<Fault>) -> Result<usize, Fault>
    ensures length { IfOk result (λ n. n ≤ 80) }
    ensures answer { (result, out.new) ≡ answered (fault_text address fault) out.old }
{
    check_room(out)?;
    let mut reply = Reply::begin(out, address, b"EE ");
    write_cause(&mut reply, fault);
    Ok(reply.finish())
}
