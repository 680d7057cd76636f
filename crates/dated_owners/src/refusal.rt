//! Why a move is refused.

ghost use Rattle.std.specs.Prelude.{◌≡◌};
ghost use Rattle.dated_owners.specs.declared.refusal.Refusal.TheVariants as refusals;

use system_keys::OutOfMemory;
use thiserror::Error;

/// Why a move is refused (this project's profile). The number and the name stand in printed text;
/// `OutOfMemory` has no number and is never printed.
#[derive(Clone, Copy, Debug, PartialEq, Eq, Error)]
pub enum Refusal {
    /// The destination is not below the number of resolvers.
    #[error("there is no such resolver")]
    NoSuchResolver,
    /// The date is below the date of the last move.
    #[error("the date of a move goes back")]
    DateGoesBack,
    /// An allocation failed.
    #[error("out of memory")]
    OutOfMemory,
}

impl Refusal {
    ghost use Rattle.dated_owners.specs.Refusals.{refusal_number, refusal_name};

    /// The number that is printed, or `None` for `OutOfMemory`.
    pub fn number(&self) -> Option<u32>
        ensures { result ≡ refusal_number self.now }
    {
        match self {
            Refusal::NoSuchResolver => Some(20),
            Refusal::DateGoesBack => Some(21),
            Refusal::OutOfMemory => None,
        }
    }

    /// The name that is printed beside the number.
    pub fn name(&self) -> &'static str
        ensures { result.now ≡ refusal_name self.now }
    {
        match self {
            Refusal::NoSuchResolver => "NoSuchResolver",
            Refusal::DateGoesBack => "DateGoesBack",
            Refusal::OutOfMemory => "OutOfMemory",
        }
    }
}

impl From<OutOfMemory> for Refusal {
    ghost from_gives = { λ _ refusal. refusal ≡ refusals.OutOfMemory };

    fn from(_error: OutOfMemory) -> Refusal {
        Refusal::OutOfMemory
    }
}
