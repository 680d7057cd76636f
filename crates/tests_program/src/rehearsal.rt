//! A session over a device in memory, whose history is known.

ghost use Rattle.std.specs.Prelude.{◌≡◌, [], None};
ghost use Rattle.session_run.specs.Session.{session_rules};
ghost use Rattle.tests_program.specs.Rehearsals.{AnswersInHistory, history_of};

use crate::memory_device::MemoryDevice;
use session_run::{Session, SessionStatus};
use sessions::{Answering, answer_lines};
use std::alloc::Global;

/// Answers the lines of a device of which nothing was read and to which nothing was written.
pub fn rehearse<A: Answering>(
    alloc: Global,
    answering: &mut A,
    device: &mut MemoryDevice<'_>,
) -> SessionStatus
    requires { device.old.calls.items ≡ [] }
    ensures { AnswersInHistory A.rules (A.state answering.old) device.old.rest.now
        (history_of device.new.calls.items) result }
{
    answer_lines(alloc, answering, device)
}

/// The same of a session with a cluster.
pub fn rehearse_session(alloc: Global, device: &mut MemoryDevice<'_>) -> SessionStatus
    requires { device.old.calls.items ≡ [] }
    ensures { AnswersInHistory session_rules None device.old.rest.now
        (history_of device.new.calls.items) result }
{
    let mut session = Session::new();
    rehearse(alloc, &mut session, device)
}
