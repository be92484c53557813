//! What holds of whole runs.
ghost use Rattle.engine.specs.Laws.{StaysInSequences, RunsOnlyWritten, StepsWithPower, StopsAfterGe, WaitsItsTime};

/// What holds of every run. It does nothing: its contract is the theorem.
pub fn run_laws()
    ensures within { StaysInSequences }
    ensures written { RunsOnlyWritten }
    ensures power { StepsWithPower }
    ensures stops { StopsAfterGe }
    ensures waits { WaitsItsTime }
{}
