//! Creating, erasing and reading: the directory and the lent records change together.
ghost use Rattle.std.specs.Prelude.{◌≡◌, ◌+◌, ◌<◌, ◌≤◌, true, [], ◌∷◌, ◌++◌, length, Ok, IfOk, OnOk};
ghost use Rattle.std.specs.List.{remove};
ghost use Rattle.faults.specs.Faults.{and_then};
ghost use Rattle.store.specs.Blocks.{reserved, sound};
ghost use Rattle.store.specs.Directories.{sequences};
ghost use Rattle.store.specs.Records.{lent, blanked, closed, appended, create_answer, erased_blocks, erased_records, located, read_answer, phase_at};

use super::{Block, Directory};
use faults::Fault;
use phases::{Phase, Position};

/// How many records a phase memory has.
pub const RECORDS: usize = 414;

/// Whether these are the 414 records of a phase memory; refused with 101 where they are more or fewer.
pub fn check_memory(records: &[Phase]) -> Result<(), Fault>
    ensures answer { result ≡ lent records.now }
    ensures length { OnOk result (length records.now ≡ 414) }
{
    if records.len() == RECORDS {
        Ok(())
    } else {
        Err(Fault::wrong_memory())
    }
}

fn blank_out(records: &mut [Phase], from: usize, many: usize)
    requires { from + many ≤ length records.old }
    ensures { records.new ≡ blanked from many records.old }
{
    records[from..from + many].fill(Phase::BLANK);
}

// Closes the gap of `many` records: those after it up to `used` move forward, and the last ones are blanked.
fn close_gap(records: &mut [Phase], from: usize, many: usize, used: usize)
    requires { (from + many ≤ used) × (used ≤ length records.old) }
    ensures { records.new ≡ closed from many used records.old }
{
    records[from..used].rotate_left(many);
    blank_out(records, used - many, many);
}

impl Directory {
    fn append(&mut self, block: Block)
        requires room { reserved (sequences self.old) + block.reserve ≤ 414 }
        requires apart { sound (sequences self.old ++ (block ∷ [])) ≡ true }
        ensures { sequences self.new ≡ sequences self.old ++ (block ∷ []) }
    {
        self.blocks[self.count] = block;
        self.count += 1;
    }

    fn remove(&mut self, index: usize)
        requires { index < length (sequences self.old) }
        ensures { sequences self.new ≡ remove (sequences self.old) index }
    {
        self.blocks[index..self.count].rotate_left(1);
        self.count -= 1;
    }

    /// Whether the sequence can be created: its number is 1 to 99 (else 1) and its reserve 1 to 50 (else 2), there is none of that
    /// number (else 4), and all reserves together are at most 414 (else 5).
    #[tactic(auto, using(std::proofs::lemmas::Map::Keys::le_from_is_le, crate::proofs::Asked::refused_exists, crate::proofs::Asked::refused_full, crate::proofs::Asked::admitted))]
    pub fn check_create(&self, block: Block) -> Result<(), Fault>
        ensures { result ≡ create_answer (sequences self.now) block.number block.reserve }
    {
        if !(1..=99).contains(&block.number) {
            return Err(Fault::past_limit(2));
        }
        if !(1..=50).contains(&block.reserve) {
            return Err(Fault::no_such_phase(3));
        }
        if self.find(block.number).is_some() {
            return Err(Fault::sequence_exists());
        }
        if self.reserved() + usize::from(block.reserve) > RECORDS {
            return Err(Fault::memory_full());
        }
        Ok(())
    }

    /// SN, once `check_create` has accepted it: appends the sequence and blanks its records.
    pub fn create(&mut self, records: &mut [Phase], block: Block)
        requires length { length records.old ≡ 414 }
        requires accepted { create_answer (sequences self.old) block.number block.reserve ≡ Ok tt }
        ensures directory { sequences self.new ≡ appended (sequences self.old) block.number block.reserve }
        ensures records { records.new ≡ blanked (reserved (sequences self.old)) block.reserve records.old }
    {
        let used = self.reserved();
        blank_out(records, used, usize::from(block.reserve));
        self.append(block);
    }

    /// SE: closes the gap of the sequence, keeps the order and blanks the records set free; with none, it erases all sequences.
    /// Erasing an absent sequence changes nothing.
    pub fn erase(&mut self, records: &mut [Phase], sequence: Option<u8>)
        requires { length records.old ≡ 414 }
        ensures directory { sequences self.new ≡ erased_blocks (sequences self.old) sequence }
        ensures records { records.new ≡ erased_records (sequences self.old) sequence records.old }
    {
        let used = self.reserved();
        let Some(number) = sequence else {
            blank_out(records, 0, used);
            self.count = 0;
            return;
        };
        if let Some(span) = self.find(number) {
            close_gap(records, span.offset, span.reserve, used);
            self.remove(span.index);
        }
    }

    /// The index of a phase's record, below 414. Refused where the sequence is absent (3) or the phase is past its reserve (2).
    pub fn locate(&self, at: Position) -> Result<usize, Fault>
        ensures answer { result ≡ located (sequences self.now) at.sequence at.phase }
        ensures within { IfOk result (λ at. at < 414) }
    {
        let span = self.find(at.sequence).ok_or(Fault::no_sequence())?;
        let phase = usize::from(at.phase);
        if !(1..=span.reserve).contains(&phase) {
            return Err(Fault::past_reserve());
        }
        Ok(span.offset + (phase - 1))
    }

    // RS: the phase, or none if it is unwritten.
    fn read(&self, records: &[Phase], at: Position) -> Result<Option<Phase>, Fault>
        ensures { result ≡ and_then (lent records.now) (λ _. read_answer (located (sequences self.now) at.sequence at.phase) records.now) }
    {
        check_memory(records)?;
        let index = self.locate(at)?;
        Ok(Some(records[index]).filter(Phase::is_written))
    }

    /// The written phase at a position, if there is one. Other than 414 records hold none.
    pub fn phase_at(&self, records: &[Phase], at: Position) -> Option<Phase>
        ensures { result ≡ phase_at (sequences self.now) records.now at }
    {
        self.read(records, at).unwrap_or(None)
    }
}
