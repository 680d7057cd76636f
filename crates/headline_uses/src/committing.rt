//! What the promise says of a commit by a way to ask that takes the requests of one proxy alone.

ghost use Rattle.std.specs.Prelude.{◌≡◌, IfOk, Some};
ghost use Rattle.model.specs.Numbers.{ProxyNumber};

use agreed_ledger::{Naming, Sequencer};
use locked_cluster::{Asking, CommitFault, NotedFinished, SharedProxy};
use mutation::Batch;
use std::sync::Wait;

/// Commits a batch, and lets the proxy go. A way to ask that takes the requests of one proxy alone, as
/// the inboxes of a proxy do, commits by this proxy and by no other.
pub fn commit_by_own_inboxes<N: Naming, R: Wait, A: Asking<N>>(
    rt: &R,
    proxy: &SharedProxy<'_, N>,
    sequencer: &Sequencer<'_, N>,
    asking: &A,
    batch: Batch,
) -> Result<NotedFinished<N>, CommitFault<N>>
    ensures { IfOk result (λ _. (only : ProxyNumber)
        → A.takes asking.now ≡ Some only → proxy.now ≡ only) }
{
    let (noted, _guard) = proxy.commit(rt, sequencer, asking, batch)?;
    Ok(noted)
}
