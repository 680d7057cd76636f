//! Sending an answer to whoever asked, with proof of what it said.

ghost use Rattle.std.specs.Prelude.{◌≡◌};
ghost use Rattle.workers.specs.Refusing.{told_by};

use crate::worker_answer::WorkerAnswer;
use agreed_ledger::Naming;
use crossbeam_channel::{SendError, Sender};
use locked_resolvers::Refusal;
use std::marker::Model;
use std::sync::Wait;

/// What whoever asked was told: of a request that was refused the refusal, and otherwise that there is
/// a reply. Only [`tell`] makes a value of it, by sending such an answer.
#[derive(Drop)]
pub(crate) struct Told {
    refusal: Option<Refusal>,
}

impl Model for Told {
    ghost use Rattle.std.specs.Prelude.{Option};
    ghost use Rattle.locked_resolvers.specs.declared.refusal.Refusal.{Refusal};

    ghost Value = { Option Refusal };

    ghost view = { λ told. told.refusal };
}

/// Sends the answer to whoever asked, and returns what it tells, and how the sending ended.
pub(crate) fn tell<N: Naming, R: Wait>(
    rt: &R,
    reply: Sender<WorkerAnswer<N>>,
    answer: WorkerAnswer<N>,
) -> (Told, Result<(), SendError<WorkerAnswer<N>>>)
    ensures { result.0 ≡ told_by answer }
{
    let told = Told {
        refusal: answer.refusal(),
    };
    (told, reply.send(rt, answer))
}
