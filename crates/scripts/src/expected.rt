//! What a script should have had in place of a line that is not understood.
use std::fmt;

// The most calls that a module of a script may take.
pub(crate) const MOST_CALLS: usize = 20_000_000;

/// What a script should have had in place of a line that is not understood.
#[derive(Clone, Copy)]
pub enum Expected {
    /// One of the first words that there are.
    Order,
    /// An output and an address after `module`.
    Module,
    /// A `module` line before this one.
    FirstModule,
    /// A byte after `byte`, and no more than `damaged` after it.
    Byte,
    /// A number of ticks after `tick`.
    Ticks,
    /// A byte after `levels`.
    Levels,
    /// A size and a byte after `room`.
    Room,
    /// A number of records and a call after `lent`.
    Lent,
    /// Nothing after a word that stands alone.
    Alone,
    /// A module of no more calls than it may take.
    FewerCalls,
}

impl fmt::Display for Expected {
    ghost use Rattle.std.specs.Prelude.{Some};
    ghost use Rattle.scripts.specs.Messages.{expected_text};

    ghost output = { λ expected. Some (expected_text expected) };

    fn fmt<W: fmt::Write>(&self, f: &mut fmt::Formatter<W>) -> fmt::Result {
        match self {
            Expected::Order => write!(
                f,
                "module, send, type, byte, tick, levels, power-up, room, lent, fault, state or a comment"
            ),
            Expected::Module => write!(f, "module full|half|pulse|dry and an address in decimal"),
            Expected::FirstModule => write!(f, "a line that begins a module, as module full 00"),
            Expected::Byte => write!(f, "byte HH or byte HH damaged, HH in hexadecimal"),
            Expected::Ticks => write!(f, "tick N, N in decimal and at most {MOST_CALLS}"),
            Expected::Levels => write!(f, "levels HH, HH in hexadecimal"),
            Expected::Room => write!(f, "room N HH or room N HH damaged"),
            Expected::Lent => write!(
                f,
                "lent N and one of tick, power-up, levels HH, byte HH or byte HH damaged"
            ),
            Expected::Alone => write!(f, "nothing behind fault, state or power-up"),
            Expected::FewerCalls => write!(f, "at most {MOST_CALLS} calls in a module"),
        }
    }
}
