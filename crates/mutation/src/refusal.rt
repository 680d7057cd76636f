//! Why a transaction or a batch is refused.

ghost use Rattle.std.specs.Prelude.{◌≡◌};
ghost use Rattle.mutation.specs.declared.refusal.Refusal.TheVariants as refusals;

use system_keys::OutOfMemory;
use thiserror::Error;

/// Why a transaction or a batch is refused (this project's profile). The number and the name are
/// printed; `OutOfMemory` has no number and is never printed.
#[derive(Clone, Copy, Debug, PartialEq, Eq, Error)]
pub enum Refusal {
    /// A key, a value or a range is refused, or a stamp is to go into a row whose values have a
    /// fixed form.
    #[error("{0}")]
    Key(system_keys::Refusal),
    /// A value that waits for its stamp has no place for it.
    #[error("a value has no place for its stamp")]
    BadStamp,
    /// A batch has more than 1,024 transactions.
    #[error("a batch is too large")]
    BatchTooLarge,
    /// An allocation failed.
    #[error("out of memory")]
    OutOfMemory,
}

impl Refusal {
    ghost use Rattle.mutation.specs.Refusals.{refusal_number, refusal_name};

    /// The number that is printed, or `None` for `OutOfMemory`.
    pub fn number(&self) -> Option<u32>
        ensures { result ≡ refusal_number self.now }
    {
        match self {
            Refusal::Key(refusal) => Some(refusal.number()),
            Refusal::BadStamp => Some(15),
            Refusal::BatchTooLarge => Some(16),
            Refusal::OutOfMemory => None,
        }
    }

    /// The name that is printed beside the number.
    pub fn name(&self) -> &'static str
        ensures { result.now ≡ refusal_name self.now }
    {
        match self {
            Refusal::Key(refusal) => refusal.name(),
            Refusal::BadStamp => "BadStamp",
            Refusal::BatchTooLarge => "BatchTooLarge",
            Refusal::OutOfMemory => "OutOfMemory",
        }
    }
}

impl From<system_keys::Refusal> for Refusal {
    ghost from_gives = { λ of_key refusal. refusal ≡ refusals.Key of_key };

    fn from(of_key: system_keys::Refusal) -> Refusal {
        Refusal::Key(of_key)
    }
}

impl From<OutOfMemory> for Refusal {
    ghost from_gives = { λ _ refusal. refusal ≡ refusals.OutOfMemory };

    fn from(_error: OutOfMemory) -> Refusal {
        Refusal::OutOfMemory
    }
}
