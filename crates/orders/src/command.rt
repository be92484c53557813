//! A command with what its words say.

use fields::{RawPhase, RawPosition};

/// A command with what its words say; the numbers are not yet held against their limits.
#[derive(Clone, Copy)]
pub enum Command {
    StartSpeed(u64),
    PlateauSpeed(u64),
    Slope(u64),
    Distance(u64),
    Forward,
    Back,
    ZeroCounter,
    SetCounter(i64),
    Move,
    MoveToOrigin,
    MoveTo(i64),
    SlowStop,
    PowerOn,
    PowerOff,
    SetOutputs(u64),
    Create(RawPosition),
    Erase(u64),
    Choose(u64),
    Start(u64),
    Write(RawPhase),
    ReadPhase(RawPosition),
    Restart,
    ReadParameters,
    ReadPosition,
    ReadVersion,
    ReadFault,
}
