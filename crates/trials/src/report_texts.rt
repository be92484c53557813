//! How a run is told: a row, each end, the phases that are not listed, and where the table stands; and why there is no sheet.
use faults::{Cause, Fault, Place};
use phases::Position;
use runs::{Ending, Report, Row};
use sheet::Unreadable;
use std::alloc::Global;
use std::fmt;
use std::test::Fail;

// Whether a value is written so.
fn is_told<T: fmt::Display>(heap: Global, value: &T, text: &str) -> Result<bool, Fail> {
    let told = format!(in heap; "{value}")?;
    Ok(told.as_str() == text)
}

// Tick 40 ends 1 ms after the start, and 123 ticks are 3.075 ms; the columns end where those of the heading do.
#[test]
fn row_of_three_times(rt: HostRuntime) -> Result<(), Fail> {
    let row = Row {
        at: Position {
            sequence: 7,
            phase: 12,
        },
        times: 3,
        entered: 40,
        ticks: 123,
        steps: -5,
        counter: 7,
        outputs: 0x0F,
    };
    let text = "  07 12         40       1.000       3.075         -5         +7  0F  3 times\n";
    assert!(rt; is_told(rt.alloc(), &row, text)?);
    Ok(())
}

// A run whose phases are all past those that are listed.
fn report(heap: Global, ending: Ending, ticks: u32, counter: i32) -> Report {
    Report {
        sequence: 7,
        started: true,
        rows: Vec::new(heap),
        left_out: 12,
        ticks,
        ending,
        counter,
    }
}

#[test]
fn endless_run_in_words(rt: HostRuntime) -> Result<(), Fail> {
    let told = report(rt.alloc(), Ending::Endless, 24_000_000, 0).to_string(rt.alloc())?;
    assert_eq!(rt;
        told.as_str(),
        "run of sequence 07
  phase       tick       at ms      for ms      steps    counter  outputs
  phases not listed: 12
  ENDLESS: cut off, it had not ended after 24000000 ticks
  the table stands at the origin
"
    );
    Ok(())
}

// SS names a sequence that the module does not have: 3, at the store, and no tick passes.
#[test]
fn absent_sequence_in_words(rt: HostRuntime) -> Result<(), Fail> {
    let fault = Fault {
        cause: Cause::NoSequence,
        place: Place::Store,
        word: Some(2),
    };
    let mut absent = report(rt.alloc(), Ending::Fault(fault), 0, 0);
    absent.started = false;
    absent.left_out = 0;
    let told = absent.to_string(rt.alloc())?;
    assert_eq!(rt;
        told.as_str(),
        "run of sequence 07
  THE SEQUENCE WAS NOT STARTED
  phase       tick       at ms      for ms      steps    counter  outputs
  ENDED BY FAULT 3 at the store after 0 ticks
  the table stands at the origin
"
    );
    Ok(())
}

#[test]
fn faulty_run_in_words(rt: HostRuntime) -> Result<(), Fail> {
    let fault = Fault {
        cause: Cause::TooManyOpen,
        place: Place::Run,
        word: None,
    };
    let told = report(rt.alloc(), Ending::Fault(fault), 5, 3).to_string(rt.alloc())?;
    assert_eq!(rt;
        told.as_str(),
        "run of sequence 07
  phase       tick       at ms      for ms      steps    counter  outputs
  phases not listed: 12
  ENDED BY FAULT 10 at the run after 5 ticks
  THE TABLE STANDS +3 STEPS FROM THE ORIGIN
"
    );
    Ok(())
}

#[test]
fn reasons_for_no_sheet(rt: HostRuntime) -> Result<(), Fail> {
    for (reason, text) in [
        (Unreadable::WrongAddress, "a module's address is 00 to 63"),
        (
            Unreadable::NotText {
                offset: 7,
                value: 0x07,
            },
            "no sequence file: the byte at offset 7 is 07h, which is no text",
        ),
        (Unreadable::Empty, "the file is empty: it holds no line"),
        (Unreadable::NoMemory, "there is not enough memory"),
    ] {
        assert!(rt; is_told(rt.alloc(), &reason, text)?);
    }
    Ok(())
}
