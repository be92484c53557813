//! What is to be done outside the run.
use faults::Fault;
use steps::{Direction, Power};

/// The step made, the power switched, whether the counter is set to zero, the outputs set, and the fault that ends the run.
#[derive(Clone, Copy, Default)]
pub struct Effects {
    pub step: Option<Direction>,
    pub power: Option<Power>,
    pub zero_counter: bool,
    pub outputs: Option<u8>,
    pub fault: Option<Fault>,
}
