//! Short files and their proof sheets, at a module over full steps.
use outputs::{DryRunOutput, FullStepCoils, HalfStepCoils, PulseOutput, StepOutput};
use runs::{Ending, Report};
use sheet::{Sheet, Unreadable, Verdict, proofread};
use std::alloc::Global;
use std::test::Fail;

fn sheet_of(heap: Global, address: u8, bytes: &[u8]) -> Result<Sheet, Unreadable> {
    proofread(heap, FullStepCoils::new(), address, bytes)
}

fn last_run(sheet: &Sheet) -> Result<&Report, Fail> {
    match sheet.runs.last() {
        Some(run) => Ok(run),
        None => Err(Fail::new("no sequence was run")),
    }
}

// How each run of a file ended, a line for each.
fn ends_of(heap: Global, bytes: &[u8]) -> Result<String, Fail> {
    let sheet = sheet_of(heap, 0, bytes)?;
    let mut ends = String::new(heap);
    for run in &sheet.runs {
        let Report {
            sequence,
            ending,
            ticks,
            ..
        } = run;
        let end = format!(in heap; "{sequence} {ending} after {ticks} ticks\n")?;
        ends.push_str(end.as_str())?;
    }
    Ok(ends)
}

const CUT: &[u8] = b"00SN 3 2\r00SP 3 1 S+ NX C-800\r00SP 3 2 S+ NH C0";

// A file that lacks its last carriage return fails: its last phase is on the shelf and not stored.
#[test]
fn cut_file_fails(rt: HostRuntime) -> Result<(), Fail> {
    let sheet = sheet_of(rt.alloc(), 0, CUT)?;
    assert!(rt; !sheet.is_clean());
    assert!(rt; sheet.held.characters() == b"00SP 3 2 S+ NH C0".as_slice());
    assert_eq!(rt; sheet.stored(), 1);
    assert_eq!(rt; sheet.intended(), 2);
    match sheet.shelf.last() {
        Some(last) => {
            assert!(rt; matches!(last.verdict, Verdict::Missing));
            Ok(())
        },
        None => Err(Fail::new("the shelf is empty")),
    }
}

#[test]
fn cut_file_is_told(rt: HostRuntime) -> Result<(), Fail> {
    let sheet = sheet_of(rt.alloc(), 0, CUT)?;
    let told = sheet.to_string(rt.alloc())?;
    assert_eq!(rt;
        told.as_str(),
        "line   1  00SN 3 2              06h 11h  accepted
line   2  00SP 3 1 S+ NX C-800  06h 11h  accepted

THE FILE ENDS IN THE MIDDLE OF A LINE: its carriage return is missing, and it was not stored
  00SP 3 2 S+ NH C0

the shelf against the module
sequence 03  phase 01  stored      03 01 S+ NX C-0000800 NL XX NE XXXXXXXX NS XX NO XX
sequence 03  phase 02  NOT STORED  03 02 S+ NH C+0000000 NL XX NE XXXXXXXX NS XX NO XX

run of sequence 03
  phase       tick       at ms      for ms      steps    counter  outputs
  03 01          1       0.025     939.325       -800       -800  FF
  ended where sequence 03 has no phase 02 after 37574 ticks
  THE TABLE STANDS -800 STEPS FROM THE ORIGIN

lines refused: 0
1 of 2 phases stored as on the shelf
runs ended by a fault: 0
"
    );
    Ok(())
}

// A wait of 0 ms is past its limit; the phase is meant all the same.
#[test]
fn refused_line_fails(rt: HostRuntime) -> Result<(), Fail> {
    let sheet = sheet_of(rt.alloc(), 0, b"00SN 3 1\r00SP 3 1 S+ NW C0\r")?;
    assert!(rt; !sheet.is_clean());
    assert_eq!(rt; sheet.refused(), 1);
    assert_eq!(rt; sheet.stored(), 0);
    assert_eq!(rt; sheet.intended(), 1);
    Ok(())
}

// Another module's erasure touches neither the store nor the shelf.
#[test]
fn stranger_touches_nothing(rt: HostRuntime) -> Result<(), Fail> {
    let sheet = sheet_of(rt.alloc(), 0, b"00SN 3 1\r00SP 3 1 S+ NH C0\r01SE 3\r")?;
    assert!(rt; sheet.is_clean());
    assert_eq!(rt; sheet.intended(), 1);
    Ok(())
}

// A later line replaces an earlier one, and an erasure takes the phases off the shelf.
#[test]
fn clean_file_is_clean(rt: HostRuntime) -> Result<(), Fail> {
    let sheet = sheet_of(
        rt.alloc(),
        7,
        b"SN 1 1\r\nSP 1 1 S+ NH C0\r\n07SE 1\r\n07SN 3 2\r\n07SP 3 1 S+ NP C5\r\nSP 3 1 S- NP C6\r\n",
    )?;
    assert!(rt; sheet.is_clean());
    assert_eq!(rt; sheet.intended(), 1);
    Ok(())
}

#[test]
fn binary_file_is_refused(rt: HostRuntime) -> Result<(), Fail> {
    match sheet_of(rt.alloc(), 0, b"00SE 1\r\x80") {
        Err(
            Unreadable::NotText {
                offset: 7,
                value: 0x80,
            },
        ) => Ok(()),
        _ => Err(Fail::new("a byte that is no text is not told")),
    }
}

// What is told of each sort of line: a question's text, a line to all, a refusal, a stranger's line.
#[test]
fn lines_and_replies(rt: HostRuntime) -> Result<(), Fail> {
    let file = b"05RL\rVN 20\r05VN 19\rRX\r06VN 19\r05RX\r";
    let told = sheet_of(rt.alloc(), 5, file)?.to_string(rt.alloc())?;
    assert_eq!(rt;
        told.as_str(),
        "line   1  05RL     05EL 00500 02000 01000 000000 +
line   2  VN 20    no reply  accepted
line   3  05VN 19  15h 11h  refused: the value of word 2 is past its limit (1) at the values, word 2
line   4  RX       no reply  refused: a question cannot be a broadcast (0) at the reader, word 1
line   5  06VN 19  no reply  another module's line, touches nothing here
line   6  05RX     05EE 0

the shelf against the module

lines refused: 2
0 of 0 phases stored as on the shelf
runs ended by a fault: 0
"
    );
    Ok(())
}

// Sequence 1 links to a sequence that is not there: entered in tick 1, its wait of 1 ms ends in tick 41, with fault 3.
#[test]
fn absent_link_fails(rt: HostRuntime) -> Result<(), Fail> {
    let sheet = sheet_of(rt.alloc(), 0, b"00SN 1 1\r00SP 1 1 S+ NW C1 NL 2\r")?;
    assert!(rt; !sheet.is_clean());
    assert_eq!(rt; sheet.faulty_runs(), 1);
    let run = last_run(&sheet)?;
    assert_eq!(rt; run.ticks, 41);
    assert!(rt; matches!(run.ending, Ending::Fault(_)));
    Ok(())
}

// A phase that comes again and again is told once. Each time takes 41 ticks; 24,000,000 ticks are 585,365 times and 35 ticks more.
#[test]
fn endless_run_is_cut_off(rt: HostRuntime) -> Result<(), Fail> {
    let sheet = sheet_of(rt.alloc(), 0, b"00SN 1 1\r00SP 1 1 S+ NW C1 NS 1\r")?;
    assert!(rt; sheet.is_clean());
    let run = last_run(&sheet)?;
    assert!(rt; matches!(run.ending, Ending::Endless));
    assert_eq!(rt; run.ticks, 24_000_000);
    assert_eq!(rt; run.rows.len(), 1);
    assert!(rt;
        run.rows
            .iter()
            .all(|row| row.times == 585_366 && row.ticks == 24_000_000)
    );
    Ok(())
}

// The file starts a sequence, and does not wait for its end: it is cut off, the phase is read back, and the sequence is run from the origin.
#[test]
fn busy_file_is_told(rt: HostRuntime) -> Result<(), Fail> {
    let file = b"00SN 1 1\r00SP 1 1 S+ NP C1 NS 54\r00DP 7\r00SS 1\r00VN 30\r";
    let sheet = sheet_of(rt.alloc(), 0, file)?;
    assert!(rt; sheet.busy);
    assert_eq!(rt; sheet.refused(), 1);
    assert_eq!(rt; sheet.stored(), 1);
    let run = last_run(&sheet)?;
    assert_eq!(rt; (run.counter, run.ticks), (1, 81));
    assert!(rt; matches!(run.ending, Ending::Stop));
    Ok(())
}

// A busy module refuses the second line for phase 1, which the shelf has all the same. The wait of 1 ms ends in tick 41.
#[test]
fn busy_file_is_told_in_words(rt: HostRuntime) -> Result<(), Fail> {
    let file = b"00SN 1 1\r00SP 1 1 S+ NW C1\r00SS 1\r00SP 1 1 S+ NW C2\r";
    let told = sheet_of(rt.alloc(), 0, file)?.to_string(rt.alloc())?;
    assert_eq!(rt;
        told.as_str(),
        "line   1  00SN 1 1           06h 11h  accepted
line   2  00SP 1 1 S+ NW C1  06h 11h  accepted
line   3  00SS 1             06h 11h  accepted
line   4  00SP 1 1 S+ NW C2  15h 11h  refused: the module is busy (7) at the state

THE FILE LEAVES THE MODULE BUSY: what went on was cut off before the phases were read back

the shelf against the module
sequence 01  phase 01  STORED OTHERWISE
    the shelf:  01 01 S+ NW C+0000002 NL XX NE XXXXXXXX NS XX NO XX
    the module: 01 01 S+ NW C+0000001 NL XX NE XXXXXXXX NS XX NO XX

run of sequence 01
  phase       tick       at ms      for ms      steps    counter  outputs
  01 01          1       0.025       1.025         +0         +0  FF
  ended where sequence 01 has no phase 02 after 42 ticks
  the table stands at the origin

lines refused: 1
0 of 1 phases stored as on the shelf
runs ended by a fault: 0
"
    );
    Ok(())
}

// Sequence 1 ends by fault 3, and sequence 2 after it by 54, with the outputs at FFh though the file set them to 00h.
#[test]
fn runs_do_not_depend_on_those_before(rt: HostRuntime) -> Result<(), Fail> {
    let file =
        b"00GL 00\r00SN 1 1\r00SP 1 1 S+ NZ C0 NL 9\r00SN 2 1\r00SP 2 1 S+ NZ C0 NS 54\r00SP 100 1 S+ NZ C0\r";
    let told = sheet_of(rt.alloc(), 0, file)?.to_string(rt.alloc())?;
    let end =
        "sequence 02  phase 01  stored      02 01 S+ NZ C+0000000 NL XX NE XXXXXXXX NS 54 NO XX
sequence --  phase 01  NOT STORED  00SP 100 1 S+ NZ C0

run of sequence 01
  phase       tick       at ms      for ms      steps    counter  outputs
  01 01          1       0.025       0.025         +0         +0  FF
  ENDED BY FAULT 3 at the run after 1 ticks
  the table stands at the origin

run of sequence 02
  phase       tick       at ms      for ms      steps    counter  outputs
  02 01          1       0.025       0.025         +0         +0  FF
  ended by the stop, NS 54 after 1 ticks
  the table stands at the origin

lines refused: 1
2 of 3 phases stored as on the shelf
runs ended by a fault: 1
";
    assert!(rt; told.as_str().ends_with(end));
    Ok(())
}

// In these files sequence 9 waits 1 ms. Where a phase that ends in tick t calls it, the wait is entered in tick t + 1 and ends in tick
// t + 41, and tick t + 42 returns. Run by itself it ends where it has no phase 2, in tick 42.

// A phase with NS 54 calls sequence 9: its end returns to the stop.
#[test]
fn return_to_the_stop(rt: HostRuntime) -> Result<(), Fail> {
    let file = b"00SN 9 1\r00SP 9 1 S+ NW C1\r00SN 1 1\r00SP 1 1 S+ NT C0 NQ 9 NS 54\r";
    let ends = ends_of(rt.alloc(), file)?;
    assert_eq!(rt;
        ends.as_str(),
        "9 ended where sequence 09 has no phase 02 after 42 ticks
1 ended by the stop, NS 54 after 43 ticks
"
    );
    Ok(())
}

// Without NS it returns to phase 2, which sequence 1 does not have: tick 44 finds none.
#[test]
fn return_to_no_phase(rt: HostRuntime) -> Result<(), Fail> {
    let file = b"00SN 9 1\r00SP 9 1 S+ NW C1\r00SN 1 1\r00SP 1 1 S+ NT C0 NQ 9\r";
    let ends = ends_of(rt.alloc(), file)?;
    assert_eq!(rt;
        ends.as_str(),
        "9 ended where sequence 09 has no phase 02 after 42 ticks
1 ended where sequence 01 has no phase 02 after 44 ticks
"
    );
    Ok(())
}

// Sequence 2 calls sequence 9, and returns to its own phase 2, which it does not have. Sequences 1 and 3 call sequence 2, one with NS 54
// and one without; sequence 4 calls sequence 1.
#[test]
fn nested_returns(rt: HostRuntime) -> Result<(), Fail> {
    let file =
        b"00SN 9 1\r00SP 9 1 S+ NW C1\r00SN 1 1\r00SP 1 1 S+ NT C0 NQ 2 NS 54\r00SN 2 1\r00SP 2 1 S+ NT C0 NQ 9\r00SN 3 1\r00SP 3 1 S+ NT C0 NQ 2\r00SN 4 1\r00SP 4 1 S+ NT C0 NQ 1\r";
    let ends = ends_of(rt.alloc(), file)?;
    assert_eq!(rt;
        ends.as_str(),
        "9 ended where sequence 09 has no phase 02 after 42 ticks
1 ended by the stop, NS 54 after 45 ticks
2 ended where sequence 02 has no phase 02 after 44 ticks
3 ended where sequence 03 has no phase 02 after 46 ticks
4 ended by the stop, NS 54 after 46 ticks
"
    );
    Ok(())
}

// Sequence 1 calls sequence 2, whose return from sequence 9 is to the stop: it ends the whole run, though sequence 2 is still open.
#[test]
fn inner_return_to_the_stop(rt: HostRuntime) -> Result<(), Fail> {
    let file =
        b"00SN 9 1\r00SP 9 1 S+ NW C1\r00SN 1 1\r00SP 1 1 S+ NT C0 NQ 2\r00SN 2 1\r00SP 2 1 S+ NT C0 NQ 9 NS 54\r";
    let ends = ends_of(rt.alloc(), file)?;
    assert_eq!(rt;
        ends.as_str(),
        "9 ended where sequence 09 has no phase 02 after 42 ticks
1 ended by the stop, NS 54 after 44 ticks
2 ended by the stop, NS 54 after 43 ticks
"
    );
    Ok(())
}

fn version_at<O: StepOutput + Drop>(heap: Global, output: O) -> Result<String, Fail> {
    Ok(proofread(heap, output, 7, b"07RV\r")?.to_string(heap)?)
}

// RV tells the cycle of the step output.
#[test]
fn each_output_tells_its_cycle(rt: HostRuntime) -> Result<(), Fail> {
    let full = version_at(rt.alloc(), FullStepCoils::new())?;
    let half = version_at(rt.alloc(), HalfStepCoils::new())?;
    let pulse = version_at(rt.alloc(), PulseOutput::new())?;
    let dry = version_at(rt.alloc(), DryRunOutput::new())?;
    assert!(rt;
        full.as_str()
            .starts_with("line   1  07RV  07EV 10 00000004\n")
    );
    assert!(rt;
        half.as_str()
            .starts_with("line   1  07RV  07EV 10 00000008\n")
    );
    assert!(rt;
        pulse
            .as_str()
            .starts_with("line   1  07RV  07EV 10 00000001\n")
    );
    assert!(rt;
        dry.as_str()
            .starts_with("line   1  07RV  07EV 10 00000001\n")
    );
    Ok(())
}

// No sheet of nothing, of line feeds alone, or at an address that no module has.
#[test]
fn no_sheet(rt: HostRuntime) {
    assert!(rt; matches!(sheet_of(rt.alloc(), 0, b""), Err(Unreadable::Empty)));
    assert!(rt; matches!(sheet_of(rt.alloc(), 0, b"\n\n"), Err(Unreadable::Empty)));
    assert!(rt;
        matches!(
            sheet_of(rt.alloc(), 64, b"00SE 1\r"),
            Err(Unreadable::WrongAddress)
        )
    );
}
