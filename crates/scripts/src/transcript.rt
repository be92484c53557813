//! The lines of a transcript.
ghost use Rattle.std.specs.Prelude.{◌≡◌, [], ◌++◌, OnOk};
ghost use Rattle.scripts.specs.Replies.{escaped_of, escaped_all, reply_of, echo_of};
ghost use Rattle.scripts.specs.Texts.{tick_of, after_of, refused_of, fault_of};

use crate::fault_text::FaultText;
use faults::Fault;
use replies::hexadecimal;
use std::alloc::{AllocError, Global};

/// The bytes of a transcript, which grow as a script is played.
#[derive(Drop)]
pub struct Transcript {
    pub(crate) heap: Global,
    bytes: Vec<u8>,
}

impl Transcript {
    /// An empty transcript.
    pub fn new(heap: Global) -> Transcript
        ensures { result.bytes.items ≡ [] }
    {
        Transcript {
            heap,
            bytes: Vec::new(heap),
        }
    }

    /// All bytes so far.
    pub fn bytes(&self) -> &[u8]
        ensures { result.now ≡ self.now.bytes.items }
    {
        self.bytes.as_slice()
    }

    pub(crate) fn add(&mut self, text: &[u8]) -> Result<(), AllocError>
        ensures { OnOk result (self.new.bytes.items ≡ self.old.bytes.items ++ text.now) }
    {
        self.bytes.extend_from_slice(text)
    }

    // A byte of a reply: a printable character as it is, any other as \xHH.
    fn add_escaped(&mut self, byte: u8) -> Result<(), AllocError>
        ensures { OnOk result (self.new.bytes.items ≡ self.old.bytes.items ++ escaped_of byte) }
    {
        match byte {
            0x20..=0x7E => self.add(&[byte]),
            _ => {
                let [high, low] = hexadecimal(byte);
                self.add(&[b'\\', b'x', high, low])
            }
        }
    }

    // A line of the script.
    pub(crate) fn echo(&mut self, line: &[u8]) -> Result<(), AllocError>
        ensures { OnOk result (self.new.bytes.items ≡ self.old.bytes.items ++ echo_of line.now) }
    {
        self.add(b"> ")?;
        self.add(line)?;
        self.add(b"\n")?;
        Ok(())
    }

    // The bytes of a reply.
    fn add_reply(&mut self, reply: &[u8]) -> Result<(), AllocError>
        ensures { OnOk result (self.new.bytes.items ≡ self.old.bytes.items ++ escaped_all reply.now) }
    {
        for byte in reply {
            self.add_escaped(*byte)?;
        }
        Ok(())
    }

    // A reply, if it is not empty.
    pub(crate) fn reply(&mut self, reply: &[u8]) -> Result<(), AllocError>
        ensures { OnOk result (self.new.bytes.items ≡ self.old.bytes.items ++ reply_of reply.now) }
    {
        if reply.is_empty() {
            return Ok(());
        }
        self.add(b"< ")?;
        self.add_reply(reply)?;
        self.add(b"\n")?;
        Ok(())
    }

    // A tick with a step or a change of busy.
    pub(crate) fn tick(&mut self, number: usize, step: i8, busy: bool) -> Result<(), AllocError>
        ensures { OnOk result (self.new.bytes.items ≡ self.old.bytes.items ++ tick_of number step busy) }
    {
        let busy = u8::from(busy);
        // A tick without a step is told as 0, without a sign.
        let sign = if step > 0 { "+" } else { "" };
        let line = format!(in self.heap; "t {number} step {sign}{step} busy {busy}\n")?;
        self.add(line.as_bytes())
    }

    // The end of a line of ticks.
    pub(crate) fn after(&mut self, count: usize, busy: bool) -> Result<(), AllocError>
        ensures { OnOk result (self.new.bytes.items ≡ self.old.bytes.items ++ after_of count busy) }
    {
        let busy = u8::from(busy);
        let line = format!(in self.heap; "after {count} ticks: busy {busy}\n")?;
        self.add(line.as_bytes())
    }

    pub(crate) fn refused(&mut self, fault: Fault) -> Result<(), AllocError>
        ensures { OnOk result (self.new.bytes.items ≡ self.old.bytes.items ++ refused_of fault) }
    {
        let code = fault.cause.number();
        let line = format!(in self.heap; "refused {code}\n")?;
        self.add(line.as_bytes())
    }

    pub(crate) fn fault(&mut self, fault: Option<Fault>) -> Result<(), AllocError>
        ensures { OnOk result (self.new.bytes.items ≡ self.old.bytes.items ++ fault_of fault) }
    {
        let fault = FaultText(fault);
        let line = format!(in self.heap; "fault {fault}\n")?;
        self.add(line.as_bytes())
    }
}
