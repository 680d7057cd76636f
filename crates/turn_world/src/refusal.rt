//! Why an event is refused.

ghost use Rattle.std.specs.Prelude.{◌≡◌};
ghost use Rattle.turn_world.specs.declared.refusal.Refusal.TheVariants as refusals;

use model::{ResolverNumber, Version};
use system_keys::OutOfMemory;
use thiserror::Error;

/// Why an event is refused (this project's profile). The number and the name stand in printed text;
/// `OutOfMemory` has no number and is never printed.
#[derive(Clone, Copy, Debug, PartialEq, Eq, Error)]
pub enum Refusal {
    /// A range is to move to a resolver that the cluster does not have.
    #[error("the cluster has no such resolver to move to")]
    NoSuchResolver,
    /// The request comes too early: the resolver has reached `version` only.
    #[error("the request is early, since the resolver has reached {version}")]
    Early { version: Version },
    /// The proxy has acknowledged the reply: it has received everything up to `acknowledged`.
    #[error("the reply is given up, since the proxy acknowledged {acknowledged}")]
    GivenUp { acknowledged: Version },
    /// The cluster does not have this proxy.
    #[error("there is no such proxy")]
    NoSuchProxy,
    /// The cluster does not have this resolver.
    #[error("there is no such resolver")]
    WrongResolver,
    /// There is no record at this row yet.
    #[error("there is no such row")]
    NoSuchRow,
    /// The proxy has no record that is begun and not finished.
    #[error("the record is not the one that is next")]
    OutOfTurn { expected: Option<u64> },
    /// A resolver has not replied: the least such one.
    #[error("resolver {resolver} has not replied")]
    MissingReply { resolver: ResolverNumber },
    /// The next version would reach the limit of versions.
    #[error("no version is left")]
    VersionsEnd,
    /// An allocation failed.
    #[error("out of memory")]
    OutOfMemory,
}

impl Refusal {
    ghost use Rattle.std.specs.Prelude.{is_none};
    ghost use Rattle.turn_world.specs.Events.{fault_of, refusal_number, refusal_name};

    /// Whether an allocation failed, which is no refusal of the definition.
    pub(crate) fn is_out_of_memory(&self) -> bool
        ensures { result ≡ is_none (fault_of self.now) }
    {
        match self {
            Refusal::OutOfMemory => true,
            _ => false,
        }
    }

    /// The number that is printed, or `None` for `OutOfMemory`.
    pub fn number(&self) -> Option<u32>
        ensures { result ≡ refusal_number self.now }
    {
        match self {
            Refusal::NoSuchResolver => Some(20),
            Refusal::Early { .. } => Some(30),
            Refusal::GivenUp { .. } => Some(31),
            Refusal::NoSuchProxy => Some(32),
            Refusal::WrongResolver => Some(33),
            Refusal::NoSuchRow => Some(35),
            Refusal::OutOfTurn { .. } => Some(42),
            Refusal::MissingReply { .. } => Some(43),
            Refusal::VersionsEnd => Some(51),
            Refusal::OutOfMemory => None,
        }
    }

    /// The name that is printed beside the number.
    pub fn name(&self) -> &'static str
        ensures { result.now ≡ refusal_name self.now }
    {
        match self {
            Refusal::NoSuchResolver => "NoSuchResolver",
            Refusal::Early { .. } => "Early",
            Refusal::GivenUp { .. } => "GivenUp",
            Refusal::NoSuchProxy => "NoSuchProxy",
            Refusal::WrongResolver => "WrongResolver",
            Refusal::NoSuchRow => "NoSuchRow",
            Refusal::OutOfTurn { .. } => "OutOfTurn",
            Refusal::MissingReply { .. } => "MissingReply",
            Refusal::VersionsEnd => "VersionsEnd",
            Refusal::OutOfMemory => "OutOfMemory",
        }
    }
}

impl From<OutOfMemory> for Refusal {
    ghost from_gives = { λ _ refusal. refusal ≡ refusals.OutOfMemory };

    fn from(_error: OutOfMemory) -> Refusal {
        Refusal::OutOfMemory
    }
}
