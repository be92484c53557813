//! What the arguments of `transcript` ask for.
ghost use Rattle.std.specs.Prelude.{◌≡◌};
ghost use Rattle.std.specs.Option.{option_copied};
ghost use Rattle.programs.specs.Requests.{first_option, AskedBy};

use crate::naming::is_option;
use crate::request::{Request, WrongUse};

// The first option among the words.
fn first_option(words: &[String]) -> Option<&String>
    ensures { option_copied result ≡ first_option words.now }
{
    words.iter().find(|word| is_option(word.as_str()))
}

/// Reads the arguments of `transcript`: the scripts to be played, none for standard input. The first option decides: there is --help alone.
pub fn script_request(words: &[String]) -> Result<Request<&[String]>, WrongUse<'_>>
    ensures { AskedBy words.now result }
{
    let Some(option) = first_option(words) else {
        return Ok(Request::Work(words));
    };
    match option.as_str() {
        "--help" => Ok(Request::Usage),
        option => Err(WrongUse::Option(option)),
    }
}
