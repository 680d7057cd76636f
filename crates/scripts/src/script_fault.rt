//! Why a script is refused.

ghost use Rattle.std.specs.Prelude.{◌≡◌};
ghost use Rattle.scripts.specs.declared.script_fault.ScriptFault.TheVariants as faults;

use mutation::Refusal;
use std::alloc::{AllocError, AllocFailed};
use system_keys::OutOfMemory;
use thiserror::Error;

/// Why a script is refused (this project's profile). The number and the name are printed;
/// `OutOfMemory` has no number and is never printed.
#[derive(Clone, Copy, Debug, PartialEq, Eq, Error)]
pub enum ScriptFault {
    /// The bytes are not a JSON value.
    #[error("the script is not JSON")]
    NotJson,
    /// The value does not have the form of a script, or a number of it is outside its limits.
    #[error("the value is not of a script's shape")]
    BadShape,
    /// A key, a value, a range, a transaction or a batch of the script is refused.
    #[error("{0}")]
    Refused(Refusal),
    /// A move goes to a resolver that the cluster does not have.
    #[error("there is no such resolver")]
    NoSuchResolver,
    /// An allocation failed.
    #[error("out of memory")]
    OutOfMemory,
}

impl ScriptFault {
    ghost use Rattle.scripts.specs.ScriptFaults.{fault_number, fault_name};

    /// The number that is printed, or `None` for `OutOfMemory`.
    pub fn number(&self) -> Option<u32>
        ensures { result ≡ fault_number self.now }
    {
        match self {
            ScriptFault::NotJson => Some(70),
            ScriptFault::BadShape => Some(71),
            ScriptFault::Refused(refusal) => refusal.number(),
            ScriptFault::NoSuchResolver => Some(20),
            ScriptFault::OutOfMemory => None,
        }
    }

    /// The name that is printed beside the number.
    pub fn name(&self) -> &'static str
        ensures { result.now ≡ fault_name self.now }
    {
        match self {
            ScriptFault::NotJson => "NotJson",
            ScriptFault::BadShape => "BadShape",
            ScriptFault::Refused(refusal) => refusal.name(),
            ScriptFault::NoSuchResolver => "NoSuchResolver",
            ScriptFault::OutOfMemory => "OutOfMemory",
        }
    }
}

impl From<AllocError> for ScriptFault {
    ghost from_gives = { λ _ fault. fault ≡ faults.OutOfMemory };

    fn from(_error: AllocError) -> ScriptFault {
        ScriptFault::OutOfMemory
    }
}

impl From<OutOfMemory> for ScriptFault {
    ghost from_gives = { λ _ fault. fault ≡ faults.OutOfMemory };

    fn from(_error: OutOfMemory) -> ScriptFault {
        ScriptFault::OutOfMemory
    }
}

impl<T: Drop> From<AllocFailed<T>> for ScriptFault {
    ghost from_gives = { λ _ fault. fault ≡ faults.OutOfMemory };

    fn from(_failed: AllocFailed<T>) -> ScriptFault {
        ScriptFault::OutOfMemory
    }
}
