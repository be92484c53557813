//! The power of a step output.

/// Whether the output moves the motor when it steps: off, a step is refused.
#[derive(Clone, Copy, PartialEq, Eq)]
pub enum Power {
    On,
    Off,
}
