//! Plays scripts of calls on modules, and prints what every call answered.
#![tactic(auto)]

use programs::{Failed, Program, script_request};
use scripts::{Transcript, transcribe};
use std::io::Write;
use std::process::ExitCode;

const USAGE: &str = "usage: transcript [FILE ..]

Plays a script on modules that exist only here, and prints what every call
answered. Without a FILE, and for -, the script is standard input; several files
are played one after another, each with modules of its own. Status 0 if every
line was understood, else 1.

    module full|half|pulse|dry ADDRESS
                  begins a module and ends the one before
    send TEXT     the characters of TEXT, then 0Dh
    type TEXT     the characters of TEXT alone
    byte HH [damaged]
    tick N        N ticks
    levels HH     the input levels
    power-up
    room N HH [damaged]              a character with a reply buffer of N bytes
    lent N tick|power-up|levels HH|byte HH [damaged]
                  a call with N records lent; 414 are right
    fault         tells the fault record
    state         tells the module's state
    # ..          a comment";

// Prints the transcript of a script's bytes.
fn print_transcript(program: &Program, name: &str, bytes: &[u8]) -> Result<(), Failed> {
    let rt = program.rt;
    let mut transcript = Transcript::new(rt.alloc());
    let result = transcribe(rt.alloc(), bytes, &mut transcript);
    if let Err(error) = rt.stdout().write_all(transcript.bytes()) {
        return program.fail(format_args!("standard output: {error}"));
    }
    match result {
        Ok(()) => Ok(()),
        Err(trouble) => program.fail(format_args!("{name}: {trouble}")),
    }
}

// Plays the script of a file.
fn play_file(program: &Program, file: &str) -> Result<(), Failed> {
    program.with_file(file, |name, bytes| print_transcript(program, name, bytes))
}

// Plays every file, or standard input where there is none, and fails if one of them did.
fn play_files(program: &Program, files: &[String]) -> Result<(), Failed> {
    if files.is_empty() {
        return play_file(program, "-");
    }
    files.iter().fold(
        Ok(()),
        |played, file| play_file(program, file.as_str()).and(played),
    )
}

fn main(rt: HostRuntime) -> ExitCode {
    let program = Program {
        rt: &rt,
        name: "transcript",
        usage: USAGE,
    };
    program.run(|words| program.follow(script_request(words), |files| play_files(&program, files)))
}
