//! The coils of a motor: a place among 2^24, as an index into the cycle of the drive and a number of whole cycles, and power.
ghost use Rattle.std.specs.Prelude.{◌+◌, ◌*◌, ◌^◌, ◌<◌, ◌≤◌};

use crate::drive::Drive;
use std::marker::PhantomData;

mod cycle;
mod output;

/// The coils of a motor under a drive: a place of 0 to 16,777,215, and power.
#[derive(Drop)]
pub struct MotorCoils<D: Drive> {
    index: u32,
    cycles: u32,
    power: bool,
    drive: PhantomData<D>,
    ghost index_below: { index < D.Drive.CYCLE },
    ghost place_below: { cycles * D.Drive.CYCLE + D.Drive.CYCLE ≤ 2 ^ 24 },
}
