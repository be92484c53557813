//! The reading of a file: its characters go to a module, and its lines to the shelf; then the phases are read back, and the sequences run.
ghost use Rattle.std.specs.Prelude.{◌≡◌, true, false, [], ◌∷◌, ◌++◌, nat_le, IfOk, IfErr, OnOk};
ghost use Rattle.std.specs.Option.{option_and_then};
ghost use Rattle.history.specs.Hosts.{state_of, after_own};
ghost use Rattle.runs.specs.Runs.{RunInTurn};
ghost use Rattle.sheet.specs.Characters.{AllText};
ghost use Rattle.sheet.specs.Reasons.{Explained};
ghost use Rattle.sheet.specs.Files.{nothing, gathered, is_empty};
ghost use Rattle.sheet.specs.Exchanges.{exchange_of, exchanges_of, fresh, byte_sent, bytes_sent};
ghost use Rattle.sheet.specs.ReadBack.{rs_line, read_back, after_reading, Compared, after_shelf};
ghost use Rattle.sheet.specs.Shelves.{position_of, stepped};
ghost use Rattle.sheet.specs.Steps.{step_of};
ghost use Rattle.sheet.specs.Readings.{progress, told, UpToDate};
ghost use Rattle.sheet.specs.Telling.{numbers_in, Tells, file_sent};

use crate::entry::{Entry, LineOutcome};
use crate::sheet::Sheet;
use crate::shelf::{IntendedPhase, Step, take_step};
use crate::text::{stray_byte, told_phase};
use crate::unreadable::Unreadable;
use crate::verdict::{ShelfPhase, Verdict};
use history::Host;
use lines::Line;
use outputs::StepOutput;
use phases::{Phase, Position};
use replies::two_digits;
use runs::{Report, run};
use std::alloc::{AllocError, Global};
use store::{Block, RECORDS};

const LINE_END: u8 = 0x0D;

// What is noted of the lines so far: each with what became of it, and the shelf, a list of its own.
#[derive(Drop)]
struct Notes {
    address: u8,
    entries: Vec<Entry>,
    shelf: Vec<IntendedPhase>,
}

impl Notes {
    fn new(heap: Global, address: u8) -> Notes
        ensures entries { result.entries.items ≡ [] }
        ensures shelf { result.shelf.items ≡ [] }
        ensures address { result.address ≡ address }
    {
        Notes {
            address,
            entries: Vec::new(heap),
            shelf: Vec::new(heap),
        }
    }

    // Takes the step of a line with the shelf.
    fn step(&mut self, line: &Line) -> Result<(), AllocError>
        ensures entries { self.new.entries ≡ self.old.entries }
        ensures address { self.new.address ≡ self.old.address }
        ensures shelf { OnOk result (self.new.shelf.items ≡ stepped (step_of self.old.address line.now) self.old.shelf.items) }
    {
        take_step(&mut self.shelf, Step::of(line, self.address))
    }

    // Notes a line that has ended.
    fn add(&mut self, entry: Entry) -> Result<(), AllocError>
        ensures exchanges { OnOk result (exchanges_of self.new.entries.items ≡ exchanges_of self.old.entries.items ++ exchange_of entry ∷ []) }
        ensures shelf { OnOk result (UpToDate self.old → UpToDate self.new) }
        ensures address { self.new.address ≡ self.old.address }
    {
        self.step(&entry.line)?;
        self.entries.push(entry)?;
        Ok(())
    }
}

// The reading of a file: the module to which it is sent, and what is noted of its lines.
#[derive(Drop)]
struct Reading<O: StepOutput + Drop> {
    host: Host<O>,
    notes: Notes,
}

// The line that asks for a phase, after the address.
fn rs_line(at: Position) -> [u8; 8]
    ensures { result ≡ rs_line at }
{
    let [s, q] = two_digits(at.sequence);
    let [p, h] = two_digits(at.phase);
    [b'R', b'S', b' ', s, q, b' ', p, h]
}

// The phase that a module reads back by RS.
fn read_back<O: StepOutput + Drop>(host: &mut Host<O>, at: Position) -> Option<Phase>
    ensures found { result ≡ read_back O.CYCLE (state_of O.CYCLE host.old) at }
    ensures state { state_of O.CYCLE host.new ≡ after_own O.CYCLE (rs_line at) (state_of O.CYCLE host.old) }
{
    let reply = host.send_own(&rs_line(at));
    told_phase(reply.text())
}

// What a module reads back in the place of a phase that is meant.
fn found<O: StepOutput + Drop>(host: &mut Host<O>, intended: &IntendedPhase) -> Option<Phase>
    ensures found { result ≡ option_and_then (read_back O.CYCLE (state_of O.CYCLE host.old)) (position_of intended.now) }
    ensures state { state_of O.CYCLE host.new ≡ after_reading O.CYCLE (state_of O.CYCLE host.old) (position_of intended.now) }
{
    let at = intended.position()?;
    read_back(host, at)
}

// The shelf against the module.
fn compare<O: StepOutput + Drop>(
    heap: Global,
    host: &mut Host<O>,
    shelf: &[IntendedPhase],
) -> Result<Vec<ShelfPhase>, AllocError>
    ensures compared { IfOk result (λ v. Compared O.CYCLE (state_of O.CYCLE host.old) shelf.now v.items) }
    ensures state { OnOk result (state_of O.CYCLE host.new ≡ after_shelf O.CYCLE (state_of O.CYCLE host.old) shelf.now) }
{
    let mut compared = Vec::new(heap);
    for intended in shelf {
        let found = found(host, intended);
        compared.push(ShelfPhase {
            intended: *intended,
            verdict: Verdict::of(intended.record, found),
        })?;
    }
    Ok(compared)
}

// Each of the sequences run once.
fn run_all<O: StepOutput + Drop>(
    heap: Global,
    host: &mut Host<O>,
    blocks: &[Block],
) -> Result<Vec<Report>, AllocError>
    ensures { IfOk result (λ v. RunInTurn O.CYCLE (state_of O.CYCLE host.old) (numbers_in blocks.now) v.items) }
{
    let mut reports = Vec::new(heap);
    for block in blocks {
        reports.push(run(heap, host, block.number)?)?;
    }
    Ok(reports)
}

impl<O: StepOutput + Drop> Reading<O> {
    // Takes a character of the file. A line is judged before the module carries it out.
    fn take(&mut self, byte: u8) -> Result<(), AllocError>
        ensures progress { OnOk result (progress O.CYCLE self.new ≡ byte_sent O.CYCLE (progress O.CYCLE self.old) byte) }
        ensures shelf { OnOk result (UpToDate self.old.notes → UpToDate self.new.notes) }
        ensures address { self.new.notes.address ≡ self.old.notes.address }
    {
        if byte != LINE_END {
            let _ = self.host.character(byte);
            return Ok(());
        }
        let number = self.notes.entries.len() + 1;
        let line = self.host.module().held();
        let outcome = LineOutcome::of(self.host.judge(&line));
        let reply = self.host.character(byte);
        self.notes.add(Entry {
            number,
            line,
            outcome,
            reply,
        })
    }

    // The sheet at the file's end, where an unfinished line counts for the shelf, and the module drops it.
    fn finish(self, heap: Global) -> Result<Sheet, AllocError>
        ensures { UpToDate self.notes → IfOk result (λ s. Tells O.CYCLE self.notes.address (progress O.CYCLE self) s) }
    {
        let Reading {
            mut host,
            mut notes,
        } = self;
        let held = host.module().held();
        let busy = host.module().control().busy();
        let directory = host.module().control().directory;
        notes.step(&held)?;
        let Notes {
            address,
            entries,
            shelf,
        } = notes;
        let _ = host.set_address(address);
        host.send_own(b"GR");
        let shelf = compare(heap, &mut host, shelf.as_slice())?;
        let runs = run_all(heap, &mut host, directory.blocks())?;
        Ok(Sheet {
            entries,
            held,
            busy,
            shelf,
            runs,
        })
    }
}

// The sheet of a file that is text.
fn read_text<O: StepOutput + Drop>(
    heap: Global,
    host: Host<O>,
    address: u8,
    bytes: &[u8],
) -> Result<Sheet, AllocError>
    ensures { IfOk result (λ s. Tells O.CYCLE address (bytes_sent O.CYCLE (fresh O.CYCLE (state_of O.CYCLE host)) bytes.now) s) }
{
    let mut reading = Reading {
        host,
        notes: Notes::new(heap, address),
    };
    for byte in bytes {
        reading.take(*byte)?;
    }
    reading.finish(heap)
}

/// The proof sheet of a file's bytes at a new module of the address over the output. The bytes are sent one by one, and no time passes
/// between them; then the phases that the file means to store are read back, and each sequence is run once. There is no sheet for an
/// address above 63, where a byte is no text, for a file without a line, and where the heap has no room.
pub fn proofread<O: StepOutput + Drop>(
    heap: Global,
    output: O,
    address: u8,
    bytes: &[u8],
) -> Result<Sheet, Unreadable>
    ensures text { OnOk result (AllText bytes.now) }
    ensures address { OnOk result (nat_le address 63 ≡ true) }
    ensures holds_some { OnOk result (is_empty bytes.now ≡ false) }
    ensures refused { IfErr result (λ e. Explained address bytes.now e) }
    ensures lines { IfOk result (λ s. told s ≡ gathered nothing bytes.now) }
    ensures tells { IfOk result (λ s. Tells O.CYCLE address (file_sent O.CYCLE address (O.meaning output) bytes.now) s) }
{
    let memory = [Phase::BLANK; RECORDS];
    let Ok(host) = Host::new(output, address, memory) else {
        return Err(Unreadable::WrongAddress);
    };
    if let Some((offset, value)) = stray_byte(bytes) {
        return Err(Unreadable::NotText { offset, value });
    }
    let Ok(sheet) = read_text(heap, host, address, bytes) else {
        return Err(Unreadable::NoMemory);
    };
    if sheet.entries.is_empty() && !sheet.is_unfinished() {
        return Err(Unreadable::Empty);
    }
    Ok(sheet)
}
