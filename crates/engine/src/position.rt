//! The phase that a run is at, and where it goes on.
ghost use Rattle.std.specs.Prelude.{◌≡◌};
ghost use Rattle.engine.specs.Positions.{first_of, following, next_of};

use phases::Position;

// As NS it ends the run: a number as in the record, which a caller may lend with any.
const END: u8 = 54;

pub(crate) fn first_of(sequence: u8) -> Position
    ensures { result ≡ first_of sequence }
{
    Position { sequence, phase: 1 }
}

pub(crate) fn following(at: Position) -> Position
    ensures { result ≡ following at }
{
    Position {
        phase: at.phase.saturating_add(1),
        ..at
    }
}

// NS, or without it the following phase; none at the end of the run.
pub(crate) fn next_of(at: Position, next: Option<u8>) -> Option<Position>
    ensures { result ≡ next_of at next }
{
    match next {
        None => Some(following(at)),
        Some(END) => None,
        Some(phase) => Some(Position { phase, ..at }),
    }
}
