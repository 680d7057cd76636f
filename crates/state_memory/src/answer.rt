//! The answer of a resolver to a request that it serves.

ghost use Rattle.std.specs.Prelude.{◌≡◌, IfOk};

use model::Reply;
use system_keys::OutOfMemory;

/// The answer to a request that is served.
#[derive(Clone, Debug, Drop)]
pub enum Answer {
    /// The request was judged, and this is its reply.
    Judged(Reply),
    /// The request was judged before, and this is the reply that it got.
    Again(Reply),
}

impl Answer {
    /// Returns a copy, which shares the unseen rows. Fails only with `OutOfMemory`.
    pub fn copy(&self) -> Result<Answer, OutOfMemory>
        ensures { IfOk result (λ copy. copy ≡ self.now) }
    {
        Ok(self.clone()?)
    }
}

/// What a resolver does with a request that it does not refuse.
pub(crate) enum Decision {
    /// It gives this reply again.
    GiveAgain(Reply),
    /// It judges the request.
    Judge,
}
