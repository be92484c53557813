//! Where the open sub-sequences return to.
ghost use Rattle.std.specs.Prelude.{◌≡◌, ◌≤◌, length};

use phases::Position;

mod stack;

/// Where each open sub-sequence returns to, of at most four; no place is the end of the run. Only the first `depth` places are
/// in use, the latest last.
#[derive(Clone, Copy)]
pub struct Returns {
    places: [Option<Position>; 4],
    depth: usize,
    ghost within: { depth ≤ 4 },
    ghost whole: { length places ≡ 4 },
}
