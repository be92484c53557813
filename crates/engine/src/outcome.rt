//! What a tick of a run comes to.
use crate::effects::Effects;
use crate::run::Run;

/// What is to be done outside the run, and the run if it goes on; without one it has ended.
#[derive(Clone, Copy)]
pub struct Outcome {
    pub effects: Effects,
    pub rest: Option<Run>,
}
