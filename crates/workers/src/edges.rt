//! Edge cases of an ended worker: values that meet its definition, and values that do not in one
//! point. No code: each contract is a list of edge cases.

ghost use Rattle.workers.specs.Edges.{ACloseWasIgnored, ACloseWasObeyed, ARowWasDropped};
ghost use Rattle.workers.specs.Edges.{ATurnThatDidNotCome, AWorkerThatClosedItself};
ghost use Rattle.workers.specs.Edges.{AWorkerThatServedAll, AWorkerThatWantedMemory};
ghost use Rattle.workers.specs.Edges.{AWorkerThatWasCutOff, AnEndIsMissing};

/// A worker that has ended: which rows it judged, which Ends it took, and why it is closed or was
/// refused memory.
pub fn ended_worker_edges()
    ensures served { AWorkerThatServedAll }
    ensures dropped { ARowWasDropped }
    ensures not_due { ATurnThatDidNotCome }
    ensures cut_off { AWorkerThatWasCutOff }
    ensures missing { AnEndIsMissing }
    ensures obeyed { ACloseWasObeyed }
    ensures ignored { ACloseWasIgnored }
    ensures closed { AWorkerThatClosedItself }
    ensures wanted { AWorkerThatWantedMemory }
{}
