//! How the coils of a motor are driven: the patterns of their lines, one for each place of a cycle.
ghost use Rattle.std.specs.Prelude.{◌≡◌, ℕ, List, ◌%◌, ◌^◌, length};
ghost use Rattle.outputs.specs.Patterns.{Repeats, pattern_of};

/// The cycle of a drive, and its line patterns. The cycle divides the 2^24 places, and the patterns repeat after it and not before.
pub trait Drive {
    /// The number of places after which the patterns repeat.
    const CYCLE: u32;

    ghost CYCLE: { ℕ };

    ghost patterns: { List ℕ };

    /// The pattern at each place of a cycle: bit 0 is A+, bit 1 A-, bit 2 B+, bit 3 B-.
    fn patterns() -> &'static [u8]
        ensures { result.now ≡ patterns };

    ghost complete: { length patterns ≡ CYCLE };

    ghost divides: { 2 ^ 24 % CYCLE ≡ 0 };

    ghost repeats: { Repeats CYCLE (pattern_of CYCLE patterns) };
}
