//! Why a resolver refuses a request.

ghost use Rattle.std.specs.Prelude.{◌≡◌};
ghost use Rattle.state_memory.specs.declared.refusal.Refusal.TheVariants as refusals;

use model::Version;
use system_keys::OutOfMemory;
use thiserror::Error;

/// Why a resolver refuses a request (this project's profile). The number and the name stand in
/// printed text; `OutOfMemory` has no number and is never printed.
#[derive(Clone, Copy, Debug, PartialEq, Eq, Error)]
pub enum Refusal {
    /// The request is to another resolver.
    #[error("the request is to another resolver")]
    WrongResolver,
    /// The proxy is not below the number of proxies.
    #[error("there is no such proxy")]
    NoSuchProxy,
    /// The request does not continue the resolver's chain of versions, which has reached `version`,
    /// and no reply to it is kept.
    #[error("the request is outside the chain of versions, which has reached {version}")]
    OutsideChain { version: Version },
    /// The proxy has acknowledged the reply: it has received everything up to `acknowledged`.
    #[error("the reply is given up, since the proxy acknowledged {acknowledged}")]
    GivenUp { acknowledged: Version },
    /// The request comes too early: the resolver has reached `version` only.
    #[error("the request is early, since the resolver has reached {version}")]
    Early { version: Version },
    /// An allocation failed.
    #[error("out of memory")]
    OutOfMemory,
}

impl Refusal {
    ghost use Rattle.state_memory.specs.Answers.{refusal_number, refusal_name};

    /// The number that is printed, or `None` for `OutOfMemory`.
    pub fn number(&self) -> Option<u32>
        ensures { result ≡ refusal_number self.now }
    {
        match self {
            Refusal::WrongResolver => Some(33),
            Refusal::NoSuchProxy => Some(32),
            Refusal::OutsideChain { .. } => Some(34),
            Refusal::GivenUp { .. } => Some(31),
            Refusal::Early { .. } => Some(30),
            Refusal::OutOfMemory => None,
        }
    }

    /// The name that is printed beside the number.
    pub fn name(&self) -> &'static str
        ensures { result.now ≡ refusal_name self.now }
    {
        match self {
            Refusal::WrongResolver => "WrongResolver",
            Refusal::NoSuchProxy => "NoSuchProxy",
            Refusal::OutsideChain { .. } => "OutsideChain",
            Refusal::GivenUp { .. } => "GivenUp",
            Refusal::Early { .. } => "Early",
            Refusal::OutOfMemory => "OutOfMemory",
        }
    }
}

impl From<OutOfMemory> for Refusal {
    ghost from_gives = { λ _ refusal. refusal ≡ refusals.OutOfMemory };

    fn from(_error: OutOfMemory) -> Refusal {
        Refusal::OutOfMemory
    }
}
