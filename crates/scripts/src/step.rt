//! What a line of a script asks for.
use history::Call;
use programs::Output;

/// What a line of a script asks for.
#[derive(Clone, Copy)]
pub enum Step<'a> {
    /// Begins a module over this output; an address above 63 is refused when it is played.
    Module { output: Output, address: u8 },
    /// Sends these characters, then 0Dh.
    Send(&'a [u8]),
    /// Sends these characters.
    Type(&'a [u8]),
    /// Makes one call.
    Once(Call),
    /// Makes so many ticks, at most 20,000,000.
    Ticks(usize),
    /// Tells the fault record.
    Fault,
    /// Tells what the module is.
    State,
}
