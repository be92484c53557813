//! An order: a command whose values are within their limits, and of which all that it names in the phase memory has been looked up.
use faults::Fault;
use motion::{Slope, Speed};
use phases::{Phase, Position};
use store::Block;

/// What a module is told to do. Every number lies within the limits of its command.
#[derive(Clone, Copy)]
pub enum Order {
    /// VN, at most VX.
    StartSpeed(Speed),
    /// VX, at least VN.
    PlateauSpeed(Speed),
    /// TR.
    Slope(Slope),
    /// DR, in steps.
    Distance(u32),
    /// D+.
    Forward,
    /// D-.
    Back,
    /// DI.
    ZeroCounter,
    /// DP.
    SetCounter(i32),
    /// GO.
    Move,
    /// GH.
    MoveToOrigin,
    /// GA.
    MoveTo(i32),
    /// GE.
    SlowStop,
    /// GM.
    PowerOn,
    /// GR.
    PowerOff,
    /// GL.
    SetOutputs(u8),
    /// SN: a sequence that can be created.
    Create(Block),
    /// SE: a sequence, or all of them.
    Erase(Option<u8>),
    /// SD: a sequence that exists.
    Choose(u8),
    /// SS: a sequence that exists.
    Start(u8),
    /// SP: the index of the phase's record, and what it is to hold.
    Write { index: usize, phase: Phase },
    /// RS: a phase, and its record.
    ReadPhase { at: Position, record: Phase },
    /// MR.
    Restart,
    /// RL.
    ReadParameters,
    /// RP.
    ReadPosition,
    /// RV.
    ReadVersion,
    /// RX.
    ReadFault,
}

/// What the rows ask of the module: its address, whether it is busy, and its two speeds in steps per second.
#[derive(Clone, Copy)]
pub struct Situation {
    pub address: u8,
    pub busy: bool,
    pub start_speed: u16,
    pub plateau_speed: u16,
}

/// Whom a line is for, and its order, or why it is refused.
#[derive(Clone, Copy)]
pub enum Judgement {
    /// For this module alone: it is answered.
    Own(Result<Order, Fault>),
    /// For every module: it is not answered.
    Broadcast(Result<Order, Fault>),
    /// For another module: it does nothing here.
    Stranger,
}
