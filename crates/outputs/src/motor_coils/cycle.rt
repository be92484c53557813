//! How the place of coils moves through the cycles.
ghost use Rattle.std.specs.Prelude.{◌≡◌, ◌%◌, ◌^◌, ◌<◌};
ghost use Rattle.outputs.specs.Coils.{coils_meaning, place_of};
ghost use Rattle.outputs.specs.Meaning.{moved, initial};
ghost use Rattle.steps.specs.declared.direction.Direction.TheVariants.{Forward, Back};

use super::MotorCoils;
use crate::drive::Drive;
use crate::step_output::PLACES;
use std::marker::PhantomData;

impl<D: Drive> MotorCoils<D> {
    /// Coils at place 0 with power off.
    pub fn new() -> MotorCoils<D>
        ensures { coils_meaning result ≡ initial }
    {
        MotorCoils {
            index: 0,
            cycles: 0,
            power: false,
            drive: PhantomData,
        }
    }

    pub(super) fn forward(&mut self)
        ensures place { place_of self.new ≡ moved Forward (place_of self.old) }
        ensures power { self.new.power ≡ self.old.power }
    {
        if self.index + 1 < D::CYCLE {
            self.index += 1;
        } else if self.cycles + 1 < PLACES / D::CYCLE {
            self.index = 0;
            self.cycles += 1;
        } else {
            self.index = 0;
            self.cycles = 0;
        }
    }

    pub(super) fn back(&mut self)
        ensures place { place_of self.new ≡ moved Back (place_of self.old) }
        ensures power { self.new.power ≡ self.old.power }
    {
        if self.index > 0 {
            self.index -= 1;
        } else if self.cycles > 0 {
            self.index = D::CYCLE - 1;
            self.cycles -= 1;
        } else {
            self.index = D::CYCLE - 1;
            self.cycles = PLACES / D::CYCLE - 1;
        }
    }
}
