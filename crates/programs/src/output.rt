//! The step outputs, by name.
ghost use Rattle.std.specs.Prelude.{◌≡◌};
ghost use Rattle.programs.specs.Outputs.{output_named};

/// The step output of a module: coils in full or in half steps, pulses, or a dry run.
#[derive(Clone, Copy, PartialEq, Debug)]
pub enum Output {
    Full,
    Half,
    Pulse,
    Dry,
}

impl Output {
    /// The output that is called `full`, `half`, `pulse` or `dry`.
    pub fn named(name: &[u8]) -> Option<Output>
        ensures { result ≡ output_named name.now }
    {
        match name {
            b"full" => Some(Output::Full),
            b"half" => Some(Output::Half),
            b"pulse" => Some(Output::Pulse),
            b"dry" => Some(Output::Dry),
            _ => None,
        }
    }
}
