//! What the calls of a history answer, each that is not refused.
ghost use Rattle.std.specs.Prelude.{◌≡◌};
ghost use Rattle.history.specs.Histories.{told};

use replies::REPLY_ROOM;

/// A reply and its length in bytes; the bytes beyond it are 0.
#[derive(Clone, Copy)]
pub struct Reply {
    pub length: usize,
    pub bytes: [u8; REPLY_ROOM],
}

impl Reply {
    /// The bytes of the reply.
    pub fn text(&self) -> &[u8]
        ensures { result.now ≡ told self.now }
    {
        self.bytes.get(..self.length).unwrap_or(&self.bytes)
    }
}

/// What a call answers. A tick answers the step made, 1 forward, -1 back, 0 none, and whether the module is still busy.
#[derive(Clone, Copy)]
pub enum Answer {
    Reply(Reply),
    Ticked(i8, bool),
    Done,
}
