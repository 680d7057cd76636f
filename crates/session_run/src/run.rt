//! A session over any source and sink.

ghost use Rattle.std.specs.Prelude.{◌≡◌};
ghost use Rattle.session_run.specs.Runs.{AnswersInput, ReadFails, RunsSession, WriteFails};
ghost use Rattle.sessions.specs.Sessions.{LeavesFailures};

use crate::session::Session;
use crate::source_and_sink::SourceAndSink;
use scripts::{Sink, Source};
use sessions::{SessionStatus, answer_lines};
use std::alloc::Global;

/// Reads lines from the source to its end, and writes the answer to each to the sink before the next
/// read.
#[tactic(auto, using(crate::proofs::RunLemmas::answers))]
pub fn run_session<S: Source, T: Sink>(alloc: Global, source: &mut S, sink: &mut T) -> SessionStatus
    ensures session { RunsSession (S.remaining source.old) (S.remaining source.new)
        (T.written sink.old) (T.written sink.new) result }
    ensures input { AnswersInput (S.remaining source.old) (T.written sink.old) (T.written sink.new)
        result }
    ensures failures { LeavesFailures ReadFails WriteFails (S.failed source.old, T.failed sink.old)
        (S.failed source.new, T.failed sink.new) result }
{
    let mut session = Session::new();
    let mut joined = SourceAndSink { source, sink };
    let status = answer_lines(alloc, &mut session, &mut joined);
    // (gives the proof that its records obey the rule of commit)
    let _ = session.cluster();
    let SourceAndSink { source, sink } = joined;
    let _ = &*source;
    let _ = &*sink;
    status
}
