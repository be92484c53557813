//! What holds of the module, as theorems over its definitions: worked examples, what its lines do, the phase memory over whole histories,
//! the phases of a run, and the speed of a movement.
#![tactic(auto)]

ghost use Rattle.laws.specs.Answered.{AnswersByAddress, KeepsFaults};
ghost use Rattle.laws.specs.Busy.{TakenWhenBusy};
ghost use Rattle.laws.specs.Called.{RunsOnlyWhenCalled, RunsTheCalled, RunStays};
ghost use Rattle.laws.specs.Commands.{WorkedCommands};
ghost use Rattle.laws.specs.DirectMovements.{LeadsDirectly};
ghost use Rattle.laws.specs.Done.{AcceptedIsDone, OnlyOrdersSet};
ghost use Rattle.laws.specs.Ended.{OutputsAtTheEnd};
ghost use Rattle.laws.specs.Entering.{EntersByNature, MovesByNature, AgreesBitByBit};
ghost use Rattle.laws.specs.Examples.{WorkedExamples};
ghost use Rattle.laws.specs.Limits.{WorkedLimits};
ghost use Rattle.laws.specs.Memory.{StoresAcceptedLines, StaysFit, TellsStoredPhase, StoresItAgain};
ghost use Rattle.laws.specs.OnTheLine.{WorkedLines};
ghost use Rattle.laws.specs.Powered.{PowerWhileMoving, NoStepRefused};
ghost use Rattle.laws.specs.Refusals.{WorkedRefusals};
ghost use Rattle.laws.specs.Sequences.{WorkedSequences};
ghost use Rattle.laws.specs.Speeds.{AddsItsSpeed, GoesUpItsSlope, StaysAtStartSpeed};
ghost use Rattle.laws.specs.Stored.{TellsWhatWasStored};
ghost use Rattle.laws.specs.WhileBusy.{BusyTakes};

use engine::run_laws;

/// The transcripts of a new module: the examples of docs/MODULE.md, which lines it takes, what the commands and the phases of a
/// sequence do, what a busy module takes, the limits of the commands, and the fault record that each refusal leaves.
pub fn worked_examples()
    ensures examples { WorkedExamples }
    ensures lines { WorkedLines }
    ensures commands { WorkedCommands }
    ensures sequences { WorkedSequences }
    ensures busy { TakenWhenBusy }
    ensures limits { WorkedLimits }
    ensures refusals { WorkedRefusals }
{}

/// A sequence runs only when it is called, and it is the one that was called; which calls move a run; what a busy module takes; who is
/// answered what, and what the fault record holds then; RS tells what SP stored; an accepted line does what its order says, and nothing
/// else sets the settings or the choice; the outputs are FFh where what went on has ended; and power is on while a movement goes on, so that
/// no step is refused.
pub fn module_laws()
    ensures called { RunsOnlyWhenCalled }
    ensures begins { RunsTheCalled }
    ensures stays { RunStays }
    ensures busy { BusyTakes }
    ensures answers { AnswersByAddress }
    ensures faults { KeepsFaults }
    ensures stored { TellsWhatWasStored }
    ensures done { AcceptedIsDone }
    ensures only { OnlyOrdersSet }
    ensures outputs { OutputsAtTheEnd }
    ensures power { PowerWhileMoving }
    ensures steps { NoStepRefused }
{
    run_laws();
}

/// Of every history: the sequences and the records at its end are what the accepted SN, SE and SP lines say, and the sequences stay apart
/// and within the 414 records; RS tells at any later time what an SP line stored, as long as no accepted line names its sequence, or all;
/// and what RS tells of a written phase, sent by SP, is accepted and changes no record.
pub fn memory_laws()
    ensures stores { StoresAcceptedLines }
    ensures fits { StaysFit }
    ensures tells { TellsStoredPhase }
    ensures again { StoresItAgain }
{}

/// A tick of a movement adds its speed; a movement goes up its slope in 40 ticks for each ms of TR, and has its plateau speed then; at
/// constant speed it has its start speed in every tick.
pub fn speed_laws()
    ensures adds { AddsItsSpeed }
    ensures slope { GoesUpItsSlope }
    ensures constant { StaysAtStartSpeed }
{}

/// What the tick that enters a phase does to the counter, to power and to the outputs, and where its movement leads; where GO, GH and GA
/// lead; and when NE agrees.
pub fn entering_laws()
    ensures enters { EntersByNature }
    ensures moves { MovesByNature }
    ensures directly { LeadsDirectly }
    ensures inputs { AgreesBitByBit }
{}
