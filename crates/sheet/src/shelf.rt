//! The shelf: the phases that the file means to store, worked out from its lines alone.
ghost use Rattle.std.specs.Prelude.{◌≡◌, ◌<◌, length, IfSome, OnOk};
ghost use Rattle.std.specs.Option.{option_map};
ghost use Rattle.lines.specs.Lines.{kept};
ghost use Rattle.sheet.specs.Steps.{text_in, phase_named, refused_phase, step_of};
ghost use Rattle.sheet.specs.Shelves.{number_to, position_of, same_place, erases, place_of, replaced, kept_of, stepped};

use faults::Fault;
use lines::{Addressee, Line};
use orders::{Intention, intended};
use phases::{Phase, Position};
use std::alloc::AllocError;
use words::{Reader, Word};

/// A phase that a line means to store.
#[derive(Clone, Copy)]
pub struct IntendedPhase {
    /// The line, with its address.
    pub line: Line,
    /// The number of the sequence, 1 to 99; none where the line has no such number.
    pub sequence: Option<u8>,
    /// The number of the phase in it, 1 to 50; none where the line has no such number.
    pub phase: Option<u8>,
    /// The record; none where the line is refused for its form or its values.
    pub record: Option<Phase>,
}

// What a line does to the shelf.
#[derive(Clone, Copy)]
pub(crate) enum Step {
    Put(IntendedPhase),
    TakeOff(Option<u8>),
}

// The number, if it is one from 1 to `high`.
fn number_to(high: u8, number: Result<u64, Fault>) -> Option<u8>
    ensures { result ≡ number_to high number }
{
    let number = u8::try_from(number.ok()?).ok()?;
    (1..=high).contains(&number).then_some(number)
}

// What a line says after its address; none for a stranger's line.
fn text_of(line: &Line, address: u8) -> Option<&[u8]>
    ensures { option_map (λ t. t.now) result ≡ text_in address (kept line.now) }
{
    let from = match line.addressee(address) {
        Addressee::Own => 2,
        Addressee::Broadcast => 0,
        Addressee::Stranger => return None,
    };
    Some(line.characters().get(from..).unwrap_or(&[]))
}

// The phase that these words mean to store, where SP is the first of them.
fn phase_named(line: &Line, text: &[u8]) -> Option<IntendedPhase>
    ensures { result ≡ phase_named line.now text.now }
{
    let mut reader = Reader::new(text, 1);
    match reader.command() {
        Some(Word::Command(b"SP")) => {}
        _ => return None,
    }
    let sequence = number_to(99, reader.unsigned());
    let phase = number_to(50, reader.unsigned());
    Some(IntendedPhase {
        line: *line,
        sequence,
        phase,
        record: None,
    })
}

// The phase that a refused line means to store.
fn refused_phase(line: &Line, address: u8) -> Option<IntendedPhase>
    ensures { result ≡ refused_phase address line.now }
{
    phase_named(line, text_of(line, address)?)
}

impl Step {
    // What a line does to the shelf of a module of the address, if it does anything.
    pub(crate) fn of(line: &Line, address: u8) -> Option<Step>
        ensures { result ≡ step_of address line.now }
    {
        match intended(line, address)? {
            Ok(Some(Intention::Write { at, phase })) => Some(Step::Put(IntendedPhase {
                line: *line,
                sequence: Some(at.sequence),
                phase: Some(at.phase),
                record: Some(phase),
            })),
            Ok(Some(Intention::Erase(sequence))) => Some(Step::TakeOff(sequence)),
            Ok(None) => None,
            Err(_) => refused_phase(line, address).map(Step::Put),
        }
    }
}

impl IntendedPhase {
    // The phase's position, if it has both numbers.
    pub(crate) fn position(&self) -> Option<Position>
        ensures { result ≡ position_of self.now }
    {
        Some(Position {
            sequence: self.sequence?,
            phase: self.phase?,
        })
    }

    // Whether both are the same phase of the same sequence.
    fn is_place_of(&self, other: &IntendedPhase) -> bool
        ensures { result ≡ same_place self.now other.now }
    {
        self.position().is_some() && self.position() == other.position()
    }

    // Whether erasing the sequence, or all of them for none, takes the phase off the shelf.
    fn is_erased_by(&self, sequence: Option<u8>) -> bool
        ensures { result ≡ erases sequence self.now }
    {
        sequence.is_none() || self.sequence == sequence
    }
}

// Where the phase of the same sequence and number stands.
fn place_of(shelf: &[IntendedPhase], phase: &IntendedPhase) -> Option<usize>
    ensures value { result ≡ place_of phase.now shelf.now }
    ensures within { IfSome result (λ i. i < length shelf.now) }
{
    shelf
        .iter()
        .position(|intended| intended.is_place_of(phase))
}

// Puts a phase on the shelf, in place of the one of the same sequence and number.
fn put(shelf: &mut Vec<IntendedPhase>, phase: IntendedPhase) -> Result<(), AllocError>
    ensures { OnOk result (shelf.new.items ≡ replaced phase shelf.old.items) }
{
    match place_of(shelf.as_slice(), &phase) {
        Some(i) => shelf[i] = phase,
        None => shelf.push(phase)?,
    }
    Ok(())
}

// Takes the phases of a sequence off the shelf, or those of all.
fn take_off(shelf: &mut Vec<IntendedPhase>, sequence: Option<u8>)
    ensures { shelf.new.items ≡ kept_of sequence shelf.old.items }
{
    shelf.retain(|intended| !intended.is_erased_by(sequence));
}

// Takes the step of a line with the shelf.
pub(crate) fn take_step(
    shelf: &mut Vec<IntendedPhase>,
    step: Option<Step>,
) -> Result<(), AllocError>
    ensures { OnOk result (shelf.new.items ≡ stepped step shelf.old.items) }
{
    match step {
        Some(Step::Put(phase)) => put(shelf, phase)?,
        Some(Step::TakeOff(sequence)) => take_off(shelf, sequence),
        None => {}
    }
    Ok(())
}
