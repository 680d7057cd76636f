//! Laws of orders: every order of offers and finishes ends in the same world. No code: each
//! function's contract is a law of the definitions.

ghost use Rattle.endings.specs.Orders.{AllWorkEndsInOneWorld, EveryOrderEndsAlike};
ghost use Rattle.endings.specs.Orders.{EachProxyEndsAlike, TheUnfinishedBatchesFinish};
ghost use Rattle.endings.specs.Orders.{TheSameBatchesFinish, TheUnjudgedRowsAreJudged};
ghost use Rattle.endings.specs.Orders.{TheSameRepliesAreGiven, AnyTwoOrdersMeet};

/// Offers and finishes in any order, with repeated and refused ones, after which all records are
/// finished, lead to one world. So each proxy ends with the same journal, metadata and routing.
pub fn one_end_law()
    ensures one { AllWorkEndsInOneWorld }
    ensures alike { EveryOrderEndsAlike }
    ensures proxy { EachProxyEndsAlike }
{}

/// Of such events exactly the unfinished batches finish, in every order, each with the outcomes,
/// tags and private copies that the history gives it.
pub fn batches_finish_alike_law()
    ensures unfinished { TheUnfinishedBatchesFinish }
    ensures same { TheSameBatchesFinish }
{}

/// By such events exactly the unjudged rows are judged, in every order, each with the reply that the
/// history gives it.
pub fn rows_judged_alike_law()
    ensures unjudged { TheUnjudgedRowsAreJudged }
    ensures same { TheSameRepliesAreGiven }
{}

/// Any two lists of offers and finishes can be continued to the same world.
pub fn common_end_law()
    ensures { AnyTwoOrdersMeet }
{}
