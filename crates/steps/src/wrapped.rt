//! Numbers wrapped to 24 bits.
ghost use Rattle.std.specs.Prelude.{◌≡◌};
ghost use Rattle.steps.specs.Wrap.{wrapped24};

// The count of numbers of 24 bits, and half of it.
const COUNT: i64 = 16_777_216;

const HALF: i64 = 8_388_608;

/// The number wrapped into -8,388,608 to 8,388,607: it differs from `n` by whole turns of 2^24.
pub fn wrapped24(n: i64) -> i32
    ensures { result ≡ wrapped24 n }
{
    ((n.rem_euclid(COUNT) + HALF).rem_euclid(COUNT) - HALF) as i32
}
