//! Edge cases of an ended sender: values that meet its definition, and values that do not in one
//! point. No code: each contract is a list of edge cases.

ghost use Rattle.inboxes.specs.Edges.{ACloseFollowsTheEnd, AnotherProxyEnds, NoEndIsSent};
ghost use Rattle.inboxes.specs.Edges.{TheEndComesLast, TheEndIsSentTwice, TheWorkerIsGone};

/// What an ended sender sent: its End is the last message and the only End, unless the worker's end is
/// gone.
pub fn ended_sender_edges()
    ensures last { TheEndComesLast }
    ensures missing { NoEndIsSent }
    ensures followed { ACloseFollowsTheEnd }
    ensures twice { TheEndIsSentTwice }
    ensures other { AnotherProxyEnds }
    ensures gone { TheWorkerIsGone }
{}
