//! Why the numbers of a cluster are refused. *Profile*: all of it.

ghost use Rattle.std.specs.Prelude.{◌≡◌, Some, codes};

use thiserror::Error;

/// Why the numbers of a cluster are refused. Printed text contains the refusal's number and name.
#[derive(Clone, Copy, Debug, PartialEq, Eq, Error)]
pub enum Refusal {
    /// A number is outside its limits.
    #[error("a number of the configuration is outside its limits")]
    BadConfig,
}

impl Refusal {
    /// Returns the number that is printed.
    pub fn number(&self) -> Option<u32>
        ensures { result ≡ Some 17 }
    {
        match self {
            Refusal::BadConfig => Some(17),
        }
    }

    /// Returns the name that is printed with the number.
    pub fn name(&self) -> &'static str
        ensures { result.now ≡ codes "BadConfig" }
    {
        match self {
            Refusal::BadConfig => "BadConfig",
        }
    }
}
