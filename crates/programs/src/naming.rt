//! The words of a command line.
ghost use Rattle.std.specs.Prelude.{◌≡◌};
ghost use Rattle.programs.specs.Naming.{is_option, name_of};

// Whether a word is an option: it begins with -, and is not - alone, which is standard input.
pub(crate) fn is_option(word: &str) -> bool
    ensures { result ≡ is_option word.now }
{
    matches!(word.as_bytes(), [b'-', _, ..])
}

// How a file is called in what is printed.
pub(crate) fn name_of(file: &str) -> &str
    ensures { result.now ≡ name_of file.now }
{
    if file == "-" { "standard input" } else { file }
}
