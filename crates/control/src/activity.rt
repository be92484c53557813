//! What goes on in a module that is not at rest.
use engine::Run;
use motion::Movement;

/// The module activity: a direct movement, or the run of a sequence.
#[derive(Clone, Copy)]
pub enum Activity {
    Moving(Movement),
    Running(Run),
}
