//! Scenarios: runs of a small cluster with all their answers. No code: each contract is a list of
//! scenarios.

ghost use Rattle.scenarios.specs.FoldScenarios.{AnEmptyJournal, TheBoundaryBelongsToTheRightRow};
ghost use Rattle.scenarios.specs.FoldScenarios.{OneResolverRefuses, TheLockIsReadOnceARow};
ghost use Rattle.scenarios.specs.FoldScenarios.{TagsComeAndGoWithTheirRows, ARowListsItsTags};
ghost use Rattle.scenarios.specs.ResolverScenarios.{RequestsOfStrangers};
ghost use Rattle.scenarios.specs.StampScenarios.{TheMetadataVersionIsStamped, AStampInAText};
ghost use Rattle.scenarios.specs.StampScenarios.{WhatAStateMutationIs};
ghost use Rattle.scenarios.specs.OwnerScenarios.{ReadsAfterAMoveAskBothOwners};
ghost use Rattle.scenarios.specs.OwnerScenarios.{TheOldOwnerSaysConflict};
ghost use Rattle.scenarios.specs.OwnerScenarios.{DatedOwnersOfThreeResolvers};
ghost use Rattle.scenarios.specs.OwnerScenarios.{HowFarBackOwnersAreRemembered};
ghost use Rattle.scenarios.specs.VerdictScenarios.{TheEdgeOfTheWindow, TwoOrdersInABatch};
ghost use Rattle.scenarios.specs.VerdictScenarios.{AFalseConflictThroughTwoResolvers, SharesJudged};
ghost use Rattle.scenarios.specs.LockScenarios.{TheLockOverTwoProxies};
ghost use Rattle.scenarios.specs.LockScenarios.{AStateTransactionUnderTheLock, TheLockIsTakenOff};
ghost use Rattle.scenarios.specs.LockScenarios.{TooOldUnderTheLock};
ghost use Rattle.scenarios.specs.MemoryScenarios.{RowsAreRememberedForAProxyThatIsLate};
ghost use Rattle.scenarios.specs.MemoryScenarios.{RepeatsAndRepliesGivenUp, TwoRecordsBegunAtOnce};
ghost use Rattle.scenarios.specs.MemoryScenarios.{TwoProxiesMeet};
ghost use Rattle.scenarios.specs.ClearScenarios.{TheTagsOfAClear, AClearOfEverything};
ghost use Rattle.scenarios.specs.PrivateScenarios.{OnlyServersWithATagGetCopies, OtherKeysGetNoCopies};
ghost use Rattle.scenarios.specs.PrivateScenarios.{TheTagAfterTheBatchIsTaken};
ghost use Rattle.scenarios.specs.PrivateScenarios.{AClearedTagGetsNoCopies};
ghost use Rattle.scenarios.specs.ProxyScenarios.{AProxyThatIsBehind};
ghost use Rattle.scenarios.specs.RefusalScenarios.{RefusalsInOrder, WhatIsCheckedFirst};
ghost use Rattle.scenarios.specs.RefusalScenarios.{TheLastVersion, TheGreatestVersion};
ghost use Rattle.scenarios.specs.RefusalScenarios.{WhatAProxyHasAcknowledged};

/// The fold of a journal, the lock, and the tags of keys.
pub fn fold_scenarios()
    ensures empty { AnEmptyJournal }
    ensures boundary { TheBoundaryBelongsToTheRightRow }
    ensures refused { OneResolverRefuses }
    ensures locked { TheLockIsReadOnceARow }
    ensures tags { TagsComeAndGoWithTheirRows }
    ensures listed { ARowListsItsTags }
{}

/// Stamps, and which mutations are state mutations.
pub fn stamp_scenarios()
    ensures metadata_version { TheMetadataVersionIsStamped }
    ensures text { AStampInAText }
    ensures state { WhatAStateMutationIs }
{}

/// The owners of keys that moved, and how far back they are remembered.
pub fn owner_scenarios()
    ensures both_owners { ReadsAfterAMoveAskBothOwners }
    ensures old_owner { TheOldOwnerSaysConflict }
    ensures three_resolvers { DatedOwnersOfThreeResolvers }
    ensures remembered { HowFarBackOwnersAreRemembered }
{}

/// The verdicts of one resolver and of two.
pub fn verdict_scenarios()
    ensures window { TheEdgeOfTheWindow }
    ensures orders { TwoOrdersInABatch }
    ensures false_conflict { AFalseConflictThroughTwoResolvers }
    ensures shares { SharesJudged }
{}

/// The lock over two proxies.
pub fn lock_scenarios()
    ensures plain { TheLockOverTwoProxies }
    ensures state { AStateTransactionUnderTheLock }
    ensures taken_off { TheLockIsTakenOff }
    ensures too_old { TooOldUnderTheLock }
{}

/// Unseen and remembered rows, repeats, and proxies that run at once.
pub fn memory_scenarios()
    ensures late_proxy { RowsAreRememberedForAProxyThatIsLate }
    ensures repeats { RepeatsAndRepliesGivenUp }
    ensures at_once { TwoRecordsBegunAtOnce }
    ensures meet { TwoProxiesMeet }
{}

/// The tags of a Clear.
pub fn clear_scenarios()
    ensures tags { TheTagsOfAClear }
    ensures everything { AClearOfEverything }
{}

/// The private copies of a batch.
pub fn private_scenarios()
    ensures tagged { OnlyServersWithATagGetCopies }
    ensures others { OtherKeysGetNoCopies }
    ensures after { TheTagAfterTheBatchIsTaken }
    ensures cleared { AClearedTagGetsNoCopies }
{}

/// The routing of a proxy that is behind another one.
pub fn proxy_scenarios()
    ensures { AProxyThatIsBehind }
{}

/// Refused events change nothing; which check comes first; the last versions; and which replies are
/// given up.
pub fn refusal_scenarios()
    ensures in_order { RefusalsInOrder }
    ensures checks { WhatIsCheckedFirst }
    ensures last_version { TheLastVersion }
    ensures greatest_version { TheGreatestVersion }
    ensures acknowledged { WhatAProxyHasAcknowledged }
{}

/// Requests that no proxy of the cluster would send, and repeats.
pub fn resolver_scenarios()
    ensures { RequestsOfStrangers }
{}
