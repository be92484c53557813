//! Writes the read-back text of a phase.
ghost use Rattle.std.specs.Prelude.{◌≡◌, ◌+◌, ◌≤◌, [], ◌∷◌, IfOk, OnOk};
ghost use Rattle.words.specs.Words.{spaced};
ghost use Rattle.replies.specs.Replies.{Room, Wrote, answered};
ghost use Rattle.texts.specs.ReadBack.{ByteOrNone, Bytes, TakenBack};
ghost use Rattle.texts.specs.Texts.{link_tag, link_word, mark as mark_of, marks, number_word, outputs_word, action_words, option_words, phase_text, rs_found, rs_text};

use faults::Fault;
use phases::{Inputs, Link, Phase, Position};
use replies::{Reply, check_room};

// X where the input is not named, else the wanted level; both are bits of the inputs.
fn mark(named: u8, level: u8) -> u8
    ensures { result ≡ mark_of named level }
{
    match (named, level) {
        (0, _) => b'X',
        (_, 0) => b'0',
        _ => b'1',
    }
}

// Writes a mark for each input, input 1 first, which is bit 0.
fn write_marks(reply: &mut Reply, inputs: Inputs)
    requires { Room reply.old 8 }
    ensures byte { inputs.named ≤ 255 }
    ensures wrote { Wrote reply.old reply.new (marks 8 inputs.named inputs.levels) }
    ensures len { reply.new.len ≡ reply.old.len + 8 }
{
    let Inputs { named, levels } = inputs;
    for bit in 0..u8::BITS {
        reply.put(mark(named >> bit & 1, levels >> bit & 1));
    }
}

// Writes a number in two digits, or XX for none.
fn write_number(reply: &mut Reply, number: Option<u8>)
    requires { Room reply.old 2 }
    ensures wrote { Wrote reply.old reply.new (number_word number) }
    ensures len { reply.new.len ≡ reply.old.len + 2 }
{
    match number {
        None => reply.text(b"XX"),
        Some(number) => reply.digits(u32::from(number), 2),
    }
}

// Writes outputs in two hexadecimal digits, or XX for none.
fn write_outputs(reply: &mut Reply, outputs: Option<u8>)
    requires { Room reply.old 2 }
    ensures byte { ByteOrNone outputs }
    ensures wrote { Wrote reply.old reply.new (outputs_word outputs) }
    ensures len { reply.new.len ≡ reply.old.len + 2 }
{
    match outputs {
        None => reply.text(b"XX"),
        Some(byte) => reply.hexadecimal2(byte),
    }
}

// Writes a link with its tag, NL XX for none.
fn write_link(reply: &mut Reply, link: Option<Link<u8>>)
    requires { Room reply.old 5 }
    ensures wrote { Wrote reply.old reply.new (spaced (link_tag link ∷ link_word link ∷ [])) }
    ensures len { reply.new.len ≡ reply.old.len + 5 }
{
    let (tag, number) = match link {
        None => (b"NL ", None),
        Some(Link::Sequence(number)) => (b"NL ", Some(number)),
        Some(Link::SubSequence(number)) => (b"NQ ", Some(number)),
    };
    reply.text(tag);
    write_number(reply, number);
}

// Writes what the phase does.
fn write_action(phase: &Phase, reply: &mut Reply)
    requires { Room reply.old 15 }
    ensures wrote { Wrote reply.old reply.new (spaced (action_words phase.now)) }
    ensures len { reply.new.len ≡ reply.old.len + 15 }
{
    reply.text(&[b'S', phase.direction.sign()]);
    reply.text(b" ");
    reply.text(phase.nature.letters());
    reply.text(b" C");
    reply.signed(phase.set_point, 7);
}

// Writes the fields that SP may leave out.
fn write_options(phase: &Phase, reply: &mut Reply)
    requires { Room reply.old 29 }
    ensures bytes { Bytes phase.now }
    ensures wrote { Wrote reply.old reply.new (spaced (option_words phase.now)) }
    ensures len { reply.new.len ≡ reply.old.len + 29 }
{
    write_link(reply, phase.link);
    reply.text(b" NE ");
    write_marks(reply, phase.inputs);
    reply.text(b" NS ");
    write_number(reply, phase.next);
    reply.text(b" NO ");
    write_outputs(reply, phase.outputs);
}

// Writes the text of a phase and its position.
fn write_phase(phase: &Phase, reply: &mut Reply, at: Position)
    requires { Room reply.old 51 }
    ensures bytes { Bytes phase.now }
    ensures wrote { Wrote reply.old reply.new (phase_text at.sequence at.phase phase.now) }
    ensures len { reply.new.len ≡ reply.old.len + 51 }
{
    reply.digits(u32::from(at.sequence), 2);
    reply.text(b" ");
    reply.digits(u32::from(at.phase), 2);
    reply.text(b" ");
    write_action(phase, reply);
    reply.text(b" ");
    write_options(phase, reply);
}

// Writes the phase that is found, or X where it is unwritten.
#[tactic(auto, using(crate::proofs::Found::found_text, crate::proofs::Found::unfound_text, crate::proofs::Found::unfound_back, crate::proofs::ReadBack::reads_back))]
fn write_found(phase: &Phase, reply: &mut Reply, at: Position)
    requires { Room reply.old 51 }
    ensures back { TakenBack at phase.now }
    ensures wrote { Wrote reply.old reply.new (rs_found at.sequence at.phase phase.now) }
    ensures len { reply.new.len ≤ reply.old.len + 51 }
{
    if phase.is_written() {
        write_phase(phase, reply, at);
    } else {
        reply.text(b"X");
    }
}

/// Answers RS at the module's address: the text of this record, the phase at that position, or X where it is not written. Tells the
/// length of the reply in bytes, or refuses a buffer that has no room for a reply.
pub fn answer_rs(phase: &Phase, out: &mut [u8], address: u8, at: Position) -> Result<usize, Fault>
    ensures back { OnOk result (TakenBack at phase.now) }
    ensures length { IfOk result (λ n. n ≤ 58) }
    ensures answer { (result, out.new) ≡ answered (rs_text address at.sequence at.phase phase.now) out.old }
{
    check_room(out)?;
    let mut reply = Reply::begin(out, address, b"ES ");
    write_found(phase, &mut reply, at);
    Ok(reply.finish())
}
