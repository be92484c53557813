//! The end block of a transcript: what a module is.
ghost use Rattle.std.specs.Prelude.{OnOk};
ghost use Rattle.scripts.specs.Told.{Extends};

use crate::fault_text::FaultText;
use crate::snapshot::{ModuleState, Shown, Snapshot};
use crate::transcript::Transcript;
use phases::{Phase, Position};
use replies::REPLY_ROOM;
use std::alloc::AllocError;
use store::Block;
use texts::answer_rs;

impl Transcript {
    // The end block of a module.
    #[tactic(auto, using(crate::proofs::Told::extends_add, crate::proofs::Told::extends_none, crate::proofs::Told::extends_then))]
    pub(crate) fn state(&mut self, state: &ModuleState) -> Result<(), AllocError>
        ensures { OnOk result (Extends self.old.bytes.items self.new.bytes.items) }
    {
        self.end(&state.snapshot)?;
        self.parameters(&state.snapshot)?;
        self.sequences(state)?;
        self.shown(state.snapshot.shown)?;
        Ok(())
    }

    fn end(&mut self, now: &Snapshot) -> Result<(), AllocError>
        ensures { OnOk result (Extends self.old.bytes.items self.new.bytes.items) }
    {
        let counter = now.counter;
        let place = now.place;
        let power = if now.power { "on" } else { "off" };
        let outputs = now.control.outputs;
        let levels = now.control.levels;
        let busy = u8::from(now.control.busy());
        let fault = FaultText(now.fault);
        let line = format!(in self.heap;
            "end: counter {counter:+} place {place} power {power} outputs {outputs:02X} levels {levels:02X} busy {busy} fault {fault}\n"
        )?;
        self.add(line.as_bytes())
    }

    #[tactic(auto, using(crate::proofs::Told::extends_add, crate::proofs::Told::extends_none, crate::proofs::Told::extends_then))]
    fn parameters(&mut self, now: &Snapshot) -> Result<(), AllocError>
        ensures { OnOk result (Extends self.old.bytes.items self.new.bytes.items) }
    {
        let address = now.control.address;
        let settings = now.control.settings;
        let start = settings.parameters.start_speed();
        let plateau = settings.parameters.plateau_speed();
        let slope = settings.parameters.slope();
        let distance = settings.distance;
        let direction = char::from(settings.direction.sign());
        let line = format!(in self.heap;
            "parameters: address {address:02} VN {start} VX {plateau} TR {slope} DR {distance} direction {direction} start "
        )?;
        self.add(line.as_bytes())?;
        self.chosen(now.control.chosen)?;
        Ok(())
    }

    // The sequence chosen for the start.
    fn chosen(&mut self, chosen: Option<u8>) -> Result<(), AllocError>
        ensures { OnOk result (Extends self.old.bytes.items self.new.bytes.items) }
    {
        match chosen {
            Some(number) => {
                let text = format!(in self.heap; "{number}\n")?;
                self.add(text.as_bytes())
            }
            None => self.add(b"none\n"),
        }
    }

    // The sequences in order of creation.
    #[tactic(auto, using(crate::proofs::Told::extends_add, crate::proofs::Told::extends_none, crate::proofs::Told::extends_then))]
    fn sequences(&mut self, state: &ModuleState) -> Result<(), AllocError>
        ensures { OnOk result (Extends self.old.bytes.items self.new.bytes.items) }
    {
        for block in state.snapshot.control.directory.blocks() {
            let Block { number, reserve } = *block;
            let line = format!(in self.heap; "sequence {number} reserve {reserve}\n")?;
            self.add(line.as_bytes())?;
            self.phases(state, *block)?;
        }
        Ok(())
    }

    // The written records of a sequence.
    #[tactic(auto, using(crate::proofs::Told::extends_add, crate::proofs::Told::extends_none, crate::proofs::Told::extends_then))]
    fn phases(&mut self, state: &ModuleState, block: Block) -> Result<(), AllocError>
        ensures { OnOk result (Extends self.old.bytes.items self.new.bytes.items) }
    {
        let control = &state.snapshot.control;
        for phase in 1..=block.reserve {
            let at = Position {
                sequence: block.number,
                phase,
            };
            if let Some(record) = control.directory.phase_at(state.memory.as_slice(), at) {
                self.phase(control.address, at, &record)?;
            }
        }
        Ok(())
    }

    // The text that a record is read back by, without its end.
    fn phase(&mut self, address: u8, at: Position, record: &Phase) -> Result<(), AllocError>
        ensures { OnOk result (Extends self.old.bytes.items self.new.bytes.items) }
    {
        let mut reply = [0u8; REPLY_ROOM];
        let Ok(length) = answer_rs(record, &mut reply, address, at) else {
            return Ok(());
        };
        self.add(b"  ")?;
        self.add(&reply[..length.saturating_sub(2)])?;
        self.add(b"\n")
    }

    fn shown(&mut self, shown: Shown) -> Result<(), AllocError>
        ensures { OnOk result (Extends self.old.bytes.items self.new.bytes.items) }
    {
        let line = match shown {
            Shown::Lines(pattern) => format!(in self.heap; "lines {pattern}\n")?,
            Shown::Pulses(forward, back) => format!(in self.heap; "pulses {forward} {back}\n")?,
            Shown::Number(number) => format!(in self.heap; "number {number:+}\n")?,
        };
        self.add(line.as_bytes())
    }
}
