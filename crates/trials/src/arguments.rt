//! What the arguments of the programs ask for: each option, each refusal and its message.
use programs::{Output, Request, SheetRequest, script_request, sheet_request};
use std::alloc::Global;
use std::test::Fail;

// The words of a command line, which single spaces part.
fn words_of(heap: Global, line: &str) -> Result<Vec<String>, Fail> {
    let mut words = Vec::new(heap);
    for word in line.split(' ') {
        words.push(word.to_string(heap)?)?;
    }
    Ok(words)
}

// What `proofread` is asked for, in words.
fn sheet_asked(heap: Global, words: &[String]) -> Result<String, Fail> {
    match sheet_request(words) {
        Ok(Request::Usage) => Ok(format!(in heap; "usage")?),
        Ok(Request::Work(wanted)) => {
            let SheetRequest {
                address,
                output,
                file,
            } = wanted;
            let output = match output {
                Output::Full => "full",
                Output::Half => "half",
                Output::Pulse => "pulse",
                Output::Dry => "dry",
            };
            Ok(format!(in heap; "{file} at {address:02}, {output}")?)
        }
        Err(wrong) => Ok(wrong.to_string(heap)?),
    }
}

// What `transcript` is asked for, in words.
fn script_asked(heap: Global, words: &[String]) -> Result<String, Fail> {
    match script_request(words) {
        Ok(Request::Usage) => Ok(format!(in heap; "usage")?),
        Ok(Request::Work(files)) => {
            let count = files.len();
            let mut asked = format!(in heap; "{count}:")?;
            for file in files {
                let file = format!(in heap; " {file}")?;
                asked.push_str(file.as_str())?;
            }
            Ok(asked)
        }
        Err(wrong) => Ok(wrong.to_string(heap)?),
    }
}

// Whether a command line of `proofread` asks for this.
fn sheet_line_asks(heap: Global, line: &str, asked: &str) -> Result<bool, Fail> {
    let words = words_of(heap, line)?;
    let found = sheet_asked(heap, words.as_slice())?;
    Ok(found.as_str() == asked)
}

// Whether a command line of `transcript` asks for this.
fn script_line_asks(heap: Global, line: &str, asked: &str) -> Result<bool, Fail> {
    let words = words_of(heap, line)?;
    let found = script_asked(heap, words.as_slice())?;
    Ok(found.as_str() == asked)
}

#[test]
fn no_argument(rt: HostRuntime) -> Result<(), Fail> {
    assert_eq!(rt; sheet_asked(rt.alloc(), &[])?.as_str(), "usage");
    assert_eq!(rt; script_asked(rt.alloc(), &[])?.as_str(), "0:");
    Ok(())
}

#[test]
fn sheet_options(rt: HostRuntime) -> Result<(), Fail> {
    for (line, asked) in [
        ("masks.seq", "masks.seq at 00, full"),
        ("-", "- at 00, full"),
        ("--address 63 masks.seq", "masks.seq at 63, full"),
        ("masks.seq --address 07", "masks.seq at 07, full"),
        ("--output full masks.seq", "masks.seq at 00, full"),
        ("--output half masks.seq", "masks.seq at 00, half"),
        ("--output pulse --address 09 -", "- at 09, pulse"),
        ("masks.seq --output dry", "masks.seq at 00, dry"),
        (
            "--output half --output pulse --address 01 --address 02 a",
            "a at 02, pulse",
        ),
        ("--help", "usage"),
        ("masks.seq --help --huge", "usage"),
    ] {
        assert!(rt; sheet_line_asks(rt.alloc(), line, asked)?, "{line}");
    }
    Ok(())
}

#[test]
fn sheet_refusals(rt: HostRuntime) -> Result<(), Fail> {
    for (line, told) in [
        (
            "--address 64 masks.seq",
            "'64' is no address: a module's address is 00 to 63",
        ),
        (
            "--address 7 masks.seq",
            "'7' is no address: a module's address is 00 to 63",
        ),
        (
            "--address --help",
            "'--help' is no address: a module's address is 00 to 63",
        ),
        (
            "masks.seq --address",
            "--address wants an address, 00 to 63",
        ),
        (
            "--output Full masks.seq",
            "'Full' is no step output: there are full, half, pulse and dry",
        ),
        (
            "masks.seq --output",
            "--output wants full, half, pulse or dry",
        ),
        ("--huge masks.seq", "there is no option '--huge'"),
        ("-h", "there is no option '-h'"),
        ("a b", "one file at a time: 'b' is a second one"),
        ("- -", "one file at a time: '-' is a second one"),
        ("--address 05", "no file is named"),
    ] {
        assert!(rt; sheet_line_asks(rt.alloc(), line, told)?, "{line}");
    }
    Ok(())
}

#[test]
fn script_options(rt: HostRuntime) -> Result<(), Fail> {
    for (line, asked) in [
        ("a.script", "1: a.script"),
        ("-", "1: -"),
        ("a - b", "3: a - b"),
        ("--help", "usage"),
        ("a --help", "usage"),
        ("--help --huge", "usage"),
        ("--huge --help", "there is no option '--huge'"),
        ("a --output full", "there is no option '--output'"),
    ] {
        assert!(rt; script_line_asks(rt.alloc(), line, asked)?, "{line}");
    }
    Ok(())
}
