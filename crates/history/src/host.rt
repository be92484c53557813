//! A module with the phase memory that each call is lent.
use module::Module;
use outputs::StepOutput;
use phases::Phase;
use store::RECORDS;

mod calls;

/// A module with its phase memory, to which lines are sent and for which time passes.
#[derive(Drop)]
pub struct Host<O: StepOutput> {
    module: Module<O>,
    memory: [Phase; RECORDS],
}
