//! Scenarios: a small cluster whose work is done in several orders. No code: each contract is a list
//! of scenarios.

ghost use Rattle.endings.specs.Scenarios.{TwoOrdersEndAlike, AProxyWaitsForAResolver};
ghost use Rattle.endings.specs.Scenarios.{OneRoundIsEnough, RoundsInReverseTakeOneMoreThanRows};
ghost use Rattle.endings.specs.Scenarios.{WhatIsLeftInOrder, RowsRememberedForTheSlowest};

/// Two orders of one cluster's work: other answers, the same end.
pub fn order_scenarios()
    ensures alike { TwoOrdersEndAlike }
    ensures waits { AProxyWaitsForAResolver }
    ensures left { WhatIsLeftInOrder }
    ensures remembered { RowsRememberedForTheSlowest }
{}

/// How many rounds a small cluster takes, by the order in a round.
pub fn rounds_needed_scenarios()
    ensures one { OneRoundIsEnough }
    ensures reverse { RoundsInReverseTakeOneMoreThanRows }
{}
