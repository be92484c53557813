//! What the text of a phase means, as theorems over its definitions.
ghost use Rattle.texts.specs.ReadBack.{ReadsBack, TakesWritten, Example};

/// SP takes the read-back text of a written phase as the same phase; what SP takes counts as written.
pub fn read_back_laws()
    ensures back { ReadsBack }
    ensures taken { TakesWritten }
    ensures example { Example }
{}
