//! The module over a step output. The records and the reply buffer are lent by the caller for one call each.
use axis::Axis;
use control::Control;
use faults::Fault;
use lines::Receiver;
use outputs::StepOutput;

mod answers;
mod calls;
mod finish;
mod readings;

/// A module of the serial line: its unfinished line, its fault record, its control, and its counter beside the step output.
#[derive(Drop)]
pub struct Module<O: StepOutput> {
    receiver: Receiver,
    fault: Option<Fault>,
    control: Control,
    axis: Axis<O>,
}
