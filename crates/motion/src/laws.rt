//! What holds of whole movements.
ghost use Rattle.motion.specs.Laws.{EveryMovementValid, MakesItsSteps, AtLeastStartSpeed, MakesNoMore};
ghost use Rattle.motion.specs.Laws.{AtMostPlateau, ConstantAtMostStart, BetweenSteps, SlowStopEnds, Examples};

/// What holds of every movement. It does nothing: its contract is the theorem.
pub fn movement_laws()
    ensures valid { EveryMovementValid }
    ensures makes { MakesItsSteps }
    ensures least { AtLeastStartSpeed }
    ensures more { MakesNoMore }
    ensures plateau { AtMostPlateau }
    ensures constant { ConstantAtMostStart }
    ensures between { BetweenSteps }
    ensures stops { SlowStopEnds }
    ensures examples { Examples }
{}
