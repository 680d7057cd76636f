//! Laws of a cluster without threads, and of the parts that carry out its events. No code: each
//! function's contract is a law of the definitions.

ghost use Rattle.model.specs.Laws.Worlds.{EventsKeepSoundness, RunsAreSound, RunsLeaveAHistory};
ghost use Rattle.model.specs.Laws.Worlds.{RunsAreSerial, AnswersContinue, WorldsContinue};
ghost use Rattle.model.specs.Laws.Worlds.{CompletedBatchesAreOfTheHistory};
ghost use Rattle.model.specs.Laws.Worlds.{JudgedRepliesAreOfTheHistory};
ghost use Rattle.model.specs.Laws.Worlds.{RepeatedRepliesAreOfTheHistory};
ghost use Rattle.model.specs.Laws.Worlds.{RefusedEventsChangeNothing, NewPartsAreInStep};
ghost use Rattle.model.specs.Laws.Worlds.{AMoveKeepsThePartsInStep, TheNextRecordMayBegin};
ghost use Rattle.model.specs.Laws.Worlds.{TheBatchGetsItsRecord, ABegunRecordKeepsThePartsInStep};
ghost use Rattle.model.specs.Laws.Worlds.{AResolverAnswersAsTheWorld, AJudgedRowIsTheNext};
ghost use Rattle.model.specs.Laws.Worlds.{AJudgedRequestKeepsThePartsInStep};
ghost use Rattle.model.specs.Laws.Worlds.{AResolverKeepsTheRowsOfTheRemembered};
ghost use Rattle.model.specs.Laws.Worlds.{AProxyWithoutRecordIsOutOfTurn, AMissingReplyIsNamed};
ghost use Rattle.model.specs.Laws.Worlds.{RepliesAreKeptUntilTheFinish};
ghost use Rattle.model.specs.Laws.Worlds.{RepliesOfTheWorldHaveNoFault};
ghost use Rattle.model.specs.Laws.Worlds.{AnAwaitedRecordMayBeFinished, AProxyFinishesAsTheWorld};
ghost use Rattle.model.specs.Laws.Worlds.{AFinishKeepsThePartsInStep};

/// Whatever events come, the records are a history, and so they obey the rule of commit. The moves
/// continue those of the last record. Each event keeps this, from any such world.
pub fn run_keeps_history_law()
    ensures step { EventsKeepSoundness }
    ensures sound { RunsAreSound }
    ensures history { RunsLeaveAHistory }
    ensures serial { RunsAreSerial }
{}

/// The answers to some events, and then to others, are those to all of them in a row, and so is the
/// world after them.
pub fn events_append_law()
    ensures told { AnswersContinue }
    ensures world { WorldsContinue }
{}

/// Each finished batch, each reply and each repeated reply of a run belongs to its row of the final
/// history, whatever came later.
pub fn answers_of_history_law()
    ensures completed { CompletedBatchesAreOfTheHistory }
    ensures judged { JudgedRepliesAreOfTheHistory }
    ensures again { RepeatedRepliesAreOfTheHistory }
{}

/// A refused event changes nothing. New resolvers and new proxies are in step with the world before
/// the first event, and a move keeps all parts in step.
pub fn parts_in_step_law()
    ensures refused { RefusedEventsChangeNothing }
    ensures made { NewPartsAreInStep }
    ensures moved { AMoveKeepsThePartsInStep }
{}

/// If the cluster has such a proxy and a version is left, a batch gets the next record, and its
/// proxy may begin that record. Once it has begun it, the parts are in step with the requests that it
/// sent.
pub fn sequence_keeps_step_law()
    ensures given { TheBatchGetsItsRecord }
    ensures may { TheNextRecordMayBegin }
    ensures begun { ABegunRecordKeepsThePartsInStep }
{}

/// A resolver answers a request as the world does. If it judges the request, the row is the one after
/// those that it has judged, and the parts stay in step. Its rows are those of the records that the
/// world remembers for it.
pub fn offer_keeps_step_law()
    ensures answer { AResolverAnswersAsTheWorld }
    ensures next { AJudgedRowIsTheNext }
    ensures judged { AJudgedRequestKeepsThePartsInStep }
    ensures kept { AResolverKeepsTheRowsOfTheRemembered }
{}

/// A proxy that has begun no record finishes out of turn, and a resolver that has not judged the
/// awaited record is missing. Otherwise the resolvers still keep their replies. The proxy does not
/// refuse these, answers as the world does, and the parts stay in step.
pub fn finish_keeps_step_law()
    ensures turn { AProxyWithoutRecordIsOutOfTurn }
    ensures missing { AMissingReplyIsNamed }
    ensures kept { RepliesAreKeptUntilTheFinish }
    ensures may { AnAwaitedRecordMayBeFinished }
    ensures fault { RepliesOfTheWorldHaveNoFault }
    ensures answer { AProxyFinishesAsTheWorld }
    ensures finished { AFinishKeepsThePartsInStep }
{}
