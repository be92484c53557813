//! An output that counts the pulses sent forward and back.
ghost use Rattle.std.specs.Prelude.{◌≡◌};
ghost use Rattle.outputs.specs.Meaning.{initial};
ghost use Rattle.outputs.specs.Pulses.{no_pulses, pulse_meaning, pulses};

mod output;

/// An output that sends a pulse for each step, and counts those of each direction modulo 2^32.
#[derive(Drop)]
pub struct PulseOutput {
    forward: u32,
    back: u32,
    power: bool,
}

impl PulseOutput {
    /// An output at place 0 with power off and no pulse counted.
    pub fn new() -> PulseOutput
        ensures meaning { pulse_meaning result ≡ initial }
        ensures counts { pulses result ≡ no_pulses }
    {
        PulseOutput {
            forward: 0,
            back: 0,
            power: false,
        }
    }

    /// The pulses sent forward, modulo 2^32.
    pub fn forward(&self) -> u32
        ensures { result ≡ (pulses self.now).forward }
    {
        self.forward
    }

    /// The pulses sent back, modulo 2^32.
    pub fn back(&self) -> u32
        ensures { result ≡ (pulses self.now).back }
    {
        self.back
    }
}
