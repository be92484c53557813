//! What the arguments of `proofread` ask for.
ghost use Rattle.std.specs.Prelude.{◌≡◌, IfOk};
ghost use Rattle.programs.specs.Requests.{AddressFits};
ghost use Rattle.programs.specs.SheetWords.{answered, asked_by, texts};

use crate::address::module_address;
use crate::naming::is_option;
use crate::output::Output;
use crate::request::{Request, WrongUse};

/// A file to be proofread, - for standard input, and the address and the step output of the module that it is sent to.
#[derive(Clone, Copy)]
pub struct SheetRequest<'a> {
    pub address: u8,
    pub output: Output,
    pub file: &'a str,
}

/// Reads the arguments of `proofread`: one file, and before or after it --address and --output with a word each; an option given again
/// replaces the one before. The module has the address 00 and the output full where none is named. No argument asks for the usage, and
/// so does --help, whatever follows it.
pub fn sheet_request(words: &[String]) -> Result<Request<SheetRequest<'_>>, WrongUse<'_>>
    ensures address { IfOk result AddressFits }
    ensures asked { answered result ≡ asked_by (texts words.now) }
{
    if words.is_empty() {
        return Ok(Request::Usage);
    }
    let mut address = 0;
    let mut output = Output::Full;
    let mut file = None;
    let mut words = words.iter();
    while let Some(word) = words.next() {
        match word.as_str() {
            "--help" => return Ok(Request::Usage),
            "--address" => {
                let text = words.next().ok_or(WrongUse::NoAddress)?.as_str();
                address = module_address(text.as_bytes()).ok_or(WrongUse::Address(text))?;
            }
            "--output" => {
                let text = words.next().ok_or(WrongUse::NoOutput)?.as_str();
                output = Output::named(text.as_bytes()).ok_or(WrongUse::Output(text))?;
            }
            option if is_option(option) => return Err(WrongUse::Option(option)),
            second if file.is_some() => return Err(WrongUse::TwoFiles(second)),
            first => file = Some(first),
        }
    }
    let file = file.ok_or(WrongUse::NoFile)?;
    Ok(Request::Work(SheetRequest {
        address,
        output,
        file,
    }))
}
