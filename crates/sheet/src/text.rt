//! Which bytes a sequence file may hold, and how the text of a line and of a phase is written.
ghost use Rattle.std.specs.Prelude.{◌≡◌, MatchOption};
ghost use Rattle.sheet.specs.Characters.{is_text, AllText, FirstStray};
ghost use Rattle.sheet.specs.ReadBack.{unframed, phase_told};

use fields::{read_sp, sp_values};
use phases::{Phase, Position};
use replies::REPLY_ROOM;
use std::fmt;
use texts::answer_rs;
use words::Reader;

// A printable character, 0Dh or 0Ah.
pub(crate) fn is_text(byte: u8) -> bool
    ensures { result ≡ is_text byte }
{
    matches!(byte, b' '..=b'~' | b'\r' | b'\n')
}

// The first byte that is no text, and its place.
pub(crate) fn stray_byte(bytes: &[u8]) -> Option<(usize, u8)>
    ensures { MatchOption result (AllText bytes.now) (λ p. FirstStray bytes.now p.0 p.1) }
{
    let place = bytes.iter().position(|byte| !is_text(*byte))?;
    Some((place, bytes[place]))
}

// Characters to be written.
#[derive(Clone, Copy)]
pub(crate) struct Text<'a>(pub &'a [u8]);

impl fmt::Display for Text<'_> {
    fn fmt<W: fmt::Write>(&self, f: &mut fmt::Formatter<W>) -> fmt::Result {
        f.pad(std::str::from_utf8(self.0).map_err(|_| fmt::Error)?)
    }
}

// A reply without its address, its letters ES and its end.
fn unframed(reply: &[u8]) -> &[u8]
    ensures { result.now ≡ unframed reply.now }
{
    match reply {
        [_, _, _, _, _, text @ .., _, _] => text,
        _ => &[],
    }
}

// The phase that a reply to RS tells, as SP takes its words; none where it tells an unwritten phase, or is no such reply.
pub(crate) fn told_phase(reply: &[u8]) -> Option<Phase>
    ensures { result ≡ phase_told reply.now }
{
    let mut reader = Reader::new(unframed(reply), 1);
    let raw = read_sp(&mut reader).ok()?;
    let (_, phase) = sp_values(raw).ok()?;
    Some(phase)
}

// The record of a phase, to be written as it is read back.
#[derive(Clone, Copy)]
pub(crate) struct ReadBack {
    pub at: Position,
    pub record: Phase,
}

impl fmt::Display for ReadBack {
    fn fmt<W: fmt::Write>(&self, f: &mut fmt::Formatter<W>) -> fmt::Result {
        let mut reply = [b' '; REPLY_ROOM];
        let len = answer_rs(&self.record, &mut reply, 0, self.at).map_err(|_| fmt::Error)?;
        let text = Text(unframed(&reply[0..len]));
        write!(f, "{text}")
    }
}
