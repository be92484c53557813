//! Proofreads a sequence file: prints what became of each line, and the shelf against the module, and the runs.
#![tactic(auto)]

use outputs::{DryRunOutput, FullStepCoils, HalfStepCoils, PulseOutput};
use programs::{Failed, Output, Program, SheetRequest, sheet_request};
use sheet::{Sheet, Unreadable, proofread};
use std::process::ExitCode;

const USAGE: &str = "usage: proofread [--address NN] [--output full|half|pulse|dry] FILE

Sends a sequence file to a module that exists only here, and prints each line
with its reply; then the shelf, which is what the file means to store, against
what the module reads back; then the run of each sequence, phase by phase. FILE
is - for standard input; the address is 00 to 63, and 00 if none is given; the
output is full if none is given. The status is 0 for a clean sheet, else 1.";

// Prints a proof sheet.
fn print_sheet(
    program: &Program,
    address: u8,
    name: &str,
    sheet: Result<Sheet, Unreadable>,
) -> Result<(), Failed> {
    let rt = program.rt;
    match sheet {
        Ok(sheet) => {
            println!(rt; "proof sheet of {name} at module {address:02}")?;
            println!(rt)?;
            print!(rt; "{sheet}")?;
            if sheet.is_clean() {
                Ok(())
            } else {
                Err(Failed)
            }
        }
        Err(reason) => program.fail(format_args!("{name}: {reason}")),
    }
}

// Proofreads a file's bytes at a module over the output that is asked for.
fn proofread_at(
    program: &Program,
    wanted: SheetRequest,
    name: &str,
    bytes: &[u8],
) -> Result<(), Failed> {
    let heap = program.rt.alloc();
    let SheetRequest {
        address,
        output,
        ..
    } = wanted;
    let sheet = match output {
        Output::Full => proofread(heap, FullStepCoils::new(), address, bytes),
        Output::Half => proofread(heap, HalfStepCoils::new(), address, bytes),
        Output::Pulse => proofread(heap, PulseOutput::new(), address, bytes),
        Output::Dry => proofread(heap, DryRunOutput::new(), address, bytes),
    };
    print_sheet(program, address, name, sheet)
}

// Proofreads the file that is asked for.
fn proofread_file(program: &Program, wanted: SheetRequest) -> Result<(), Failed> {
    program.with_file(
        wanted.file,
        |name, bytes| proofread_at(program, wanted, name, bytes),
    )
}

fn main(rt: HostRuntime) -> ExitCode {
    let program = Program {
        rt: &rt,
        name: "proofread",
        usage: USAGE,
    };
    program.run(|words| program.follow(
        sheet_request(words),
        |wanted| proofread_file(&program, wanted),
    ))
}
