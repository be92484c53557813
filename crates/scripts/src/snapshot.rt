//! What is told of a module at one time.
ghost use Rattle.std.specs.Prelude.{◌≡◌};

use control::Control;
use faults::Fault;
use module::Module;
use outputs::{Drive, DryRunOutput, LineOutput, MotorCoils, PulseOutput, StepOutput};
use phases::Phase;

// What an output shows: the pattern of its lines, its pulses forward and back, or its number.
#[derive(Clone, Copy)]
pub(crate) enum Shown {
    Lines(u8),
    Pulses(u32, u32),
    Number(i32),
}

pub(crate) trait ShownOutput: StepOutput {
    fn show(&self) -> Shown;
}

impl<D: Drive> ShownOutput for MotorCoils<D> {
    fn show(&self) -> Shown {
        Shown::Lines(self.lines())
    }
}

impl ShownOutput for PulseOutput {
    fn show(&self) -> Shown {
        Shown::Pulses(self.forward(), self.back())
    }
}

impl ShownOutput for DryRunOutput {
    fn show(&self) -> Shown {
        Shown::Number(self.number())
    }
}

#[derive(Clone, Copy)]
pub(crate) struct Snapshot {
    pub control: Control,
    pub fault: Option<Fault>,
    pub counter: i32,
    pub place: u32,
    pub power: bool,
    pub shown: Shown,
}

impl<O: ShownOutput> From<&Module<O>> for Snapshot {
    fn from(module: &Module<O>) -> Snapshot
        ensures control { result.control ≡ module.now.control }
        ensures fault { result.fault ≡ module.now.fault }
        ensures counter { result.counter ≡ module.now.axis.state.counter }
        ensures place { result.place ≡ module.now.axis.state.place }
        ensures power { result.power ≡ module.now.axis.state.power }
    {
        let axis = module.axis();
        Snapshot {
            control: *module.control(),
            fault: module.fault(),
            counter: axis.counter(),
            place: axis.place(),
            power: axis.power(),
            shown: axis.output().show(),
        }
    }
}

// What a module is after some of its calls, with its memory then.
#[derive(Drop)]
pub(crate) struct ModuleState {
    pub snapshot: Snapshot,
    pub memory: Vec<Phase>,
}
