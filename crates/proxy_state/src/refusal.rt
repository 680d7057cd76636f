//! Why a proxy, or the replies that it collects, refuse.

ghost use Rattle.std.specs.Prelude.{◌≡◌};
ghost use Rattle.proxy_state.specs.declared.refusal.Refusal.TheVariants as refusals;

use model::{ResolverNumber, Version};
use system_keys::OutOfMemory;
use thiserror::Error;

/// Why a call is refused (this project's profile). The number and the name stand in printed text;
/// `OutOfMemory` has no number and is never printed.
#[derive(Clone, Copy, Debug, PartialEq, Eq, Error)]
pub enum Refusal {
    /// The reply is of a resolver that the cluster does not have.
    #[error("the reply is of a resolver that the cluster does not have")]
    WrongResolver,
    /// The record is of another proxy.
    #[error("the record is of another proxy")]
    NotMine,
    /// The record does not follow the one last begun, whose version is expected.
    #[error("the record does not follow version {expected}, which was last begun")]
    OutOfOrder { expected: Version },
    /// No record is begun, or another one is expected.
    #[error("no record is begun, or another one is expected")]
    OutOfTurn { expected: Option<u64> },
    /// A resolver has not replied: the least such one.
    #[error("resolver {resolver} has not replied")]
    MissingReply { resolver: ResolverNumber },
    /// The replies disagree at this version.
    #[error("the replies disagree at version {version}")]
    RepliesDisagree { version: Version },
    /// The proxy has only reached this version.
    #[error("the proxy is at version {version}")]
    NotReached { version: Version },
    /// The resolver has replied already.
    #[error("resolver {resolver} has replied already")]
    DoubleReply { resolver: ResolverNumber },
    /// An allocation failed.
    #[error("out of memory")]
    OutOfMemory,
}

impl Refusal {
    ghost use Rattle.proxy_state.specs.Refusals.{refusal_number, refusal_name};

    /// The number that is printed, or `None` for `OutOfMemory`.
    pub fn number(&self) -> Option<u32>
        ensures { result ≡ refusal_number self.now }
    {
        match self {
            Refusal::WrongResolver => Some(33),
            Refusal::NotMine => Some(40),
            Refusal::OutOfOrder { .. } => Some(41),
            Refusal::OutOfTurn { .. } => Some(42),
            Refusal::MissingReply { .. } => Some(43),
            Refusal::RepliesDisagree { .. } => Some(44),
            Refusal::NotReached { .. } => Some(45),
            Refusal::DoubleReply { .. } => Some(46),
            Refusal::OutOfMemory => None,
        }
    }

    /// The name that is printed beside the number.
    pub fn name(&self) -> &'static str
        ensures { result.now ≡ refusal_name self.now }
    {
        match self {
            Refusal::WrongResolver => "WrongResolver",
            Refusal::NotMine => "NotMine",
            Refusal::OutOfOrder { .. } => "OutOfOrder",
            Refusal::OutOfTurn { .. } => "OutOfTurn",
            Refusal::MissingReply { .. } => "MissingReply",
            Refusal::RepliesDisagree { .. } => "RepliesDisagree",
            Refusal::NotReached { .. } => "NotReached",
            Refusal::DoubleReply { .. } => "DoubleReply",
            Refusal::OutOfMemory => "OutOfMemory",
        }
    }
}

impl From<OutOfMemory> for Refusal {
    ghost from_gives = { λ _ refusal. refusal ≡ refusals.OutOfMemory };

    fn from(_error: OutOfMemory) -> Refusal {
        Refusal::OutOfMemory
    }
}
