//! Why a locked resolver or proxy refuses.

ghost use Rattle.std.specs.Prelude.{◌≡◌};
ghost use Rattle.locked_resolvers.specs.declared.refusal.Refusal.TheVariants as refusals;

use model::{RowNumber, Version};
use system_keys::OutOfMemory;
use thiserror::Error;

/// Why a call on a locked resolver or proxy is refused (this project's profile). The number and the
/// name stand in printed text; `OutOfMemory` has no number and is never printed.
#[derive(Clone, Copy, Debug, PartialEq, Eq, Error)]
pub enum Refusal {
    /// The request comes too early: the resolver has reached `version` only.
    #[error("the request is early, since the resolver has reached {version}")]
    Early { version: Version },
    /// The proxy has acknowledged the reply: it has received everything up to `acknowledged`.
    #[error("the reply is given up, since the proxy acknowledged {acknowledged}")]
    GivenUp { acknowledged: Version },
    /// The proxy is not below the number of proxies.
    #[error("there is no such proxy")]
    NoSuchProxy,
    /// The resolver is not below the number of resolvers, or the request is to another one.
    #[error("the request is to another resolver, or there is no such resolver")]
    WrongResolver,
    /// The request does not continue the resolver's chain of versions, which has reached `version`,
    /// and no reply to it is kept.
    #[error("the request is outside the chain of versions, which has reached {version}")]
    OutsideChain { version: Version },
    /// The record, or a request, is of another proxy.
    #[error("the record, or a request, is of another proxy")]
    NotMine,
    /// The record does not follow the one that the proxy has begun last, at version `expected`.
    #[error("the record does not follow the last one begun, at version {expected}")]
    OutOfOrder { expected: Version },
    /// The record is not the one that the proxy finishes next: the record of row `expected`, if any is
    /// begun.
    #[error("the record is not the one that is finished next")]
    OutOfTurn { expected: Option<RowNumber> },
    /// The proxy has reached `version` only.
    #[error("the proxy has reached {version} only")]
    NotReached { version: Version },
    /// The verdict cell held verdicts before.
    #[error("the cell is taken")]
    CellTaken,
    /// The resolver is closed.
    #[error("the resolver is closed")]
    Closed,
    /// An allocation failed.
    #[error("out of memory")]
    OutOfMemory,
}

impl Refusal {
    ghost use Rattle.locked_resolvers.specs.Refusals.{of_offer, refusal_name, refusal_number};

    /// The number that is printed, or `None` for `OutOfMemory`.
    pub fn number(&self) -> Option<u32>
        ensures { result ≡ refusal_number self.now }
    {
        match self {
            Refusal::Early { .. } => Some(30),
            Refusal::GivenUp { .. } => Some(31),
            Refusal::NoSuchProxy => Some(32),
            Refusal::WrongResolver => Some(33),
            Refusal::OutsideChain { .. } => Some(34),
            Refusal::NotMine => Some(40),
            Refusal::OutOfOrder { .. } => Some(41),
            Refusal::OutOfTurn { .. } => Some(42),
            Refusal::NotReached { .. } => Some(45),
            Refusal::CellTaken => Some(52),
            Refusal::Closed => Some(60),
            Refusal::OutOfMemory => None,
        }
    }

    /// The name that is printed beside the number.
    pub fn name(&self) -> &'static str
        ensures { result.now ≡ refusal_name self.now }
    {
        match self {
            Refusal::Early { .. } => "Early",
            Refusal::GivenUp { .. } => "GivenUp",
            Refusal::NoSuchProxy => "NoSuchProxy",
            Refusal::WrongResolver => "WrongResolver",
            Refusal::OutsideChain { .. } => "OutsideChain",
            Refusal::NotMine => "NotMine",
            Refusal::OutOfOrder { .. } => "OutOfOrder",
            Refusal::OutOfTurn { .. } => "OutOfTurn",
            Refusal::NotReached { .. } => "NotReached",
            Refusal::CellTaken => "CellTaken",
            Refusal::Closed => "Closed",
            Refusal::OutOfMemory => "OutOfMemory",
        }
    }

    /// The refusal that a refusal of the resolver under the lock becomes.
    pub(crate) fn of_offer(refusal: state_memory::Refusal) -> Refusal
        ensures { result ≡ of_offer refusal }
    {
        match refusal {
            state_memory::Refusal::WrongResolver => Refusal::WrongResolver,
            state_memory::Refusal::NoSuchProxy => Refusal::NoSuchProxy,
            state_memory::Refusal::OutsideChain { version } => Refusal::OutsideChain { version },
            state_memory::Refusal::GivenUp { acknowledged } => Refusal::GivenUp { acknowledged },
            state_memory::Refusal::Early { version } => Refusal::Early { version },
            state_memory::Refusal::OutOfMemory => Refusal::OutOfMemory,
        }
    }
}

impl From<OutOfMemory> for Refusal {
    ghost from_gives = { λ _ refusal. refusal ≡ refusals.OutOfMemory };

    fn from(_error: OutOfMemory) -> Refusal {
        Refusal::OutOfMemory
    }
}
