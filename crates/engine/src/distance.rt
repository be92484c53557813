//! How far NP and NV go.
ghost use Rattle.std.specs.Prelude.{◌≡◌};
ghost use Rattle.engine.specs.Distances.{distance_of};

use motion::Distance;
use phases::Phase;

// How far a phase NP or NV goes: as many steps as its set point says, in its direction.
pub(crate) fn distance_of(phase: &Phase) -> Distance
    ensures { result ≡ distance_of phase.now }
{
    Distance {
        direction: phase.direction,
        steps: phase.set_point.unsigned_abs(),
    }
}
