//! Why a ledger or its sequencer refuses.

ghost use Rattle.std.specs.Prelude.{◌≡◌, ◌⊎◌};
ghost use Rattle.agreed_ledger.specs.declared.refusal.Refusal.TheVariants as refusals;

use facts::NotSet;
use system_keys::OutOfMemory;
use thiserror::Error;

/// Why a call is refused (this project's profile). The number and the name stand in printed text;
/// `OutOfMemory` has no number and is never printed.
#[derive(Clone, Copy, Debug, PartialEq, Eq, Error)]
pub enum Refusal {
    /// The ledger would have no row or more than 4,096.
    #[error("a ledger has 1 to 4,096 rows")]
    BadConfig,
    /// The destination is not below the number of resolvers.
    #[error("there is no such resolver")]
    NoSuchResolver,
    /// The proxy is not below the number of proxies.
    #[error("there is no such proxy")]
    NoSuchProxy,
    /// Each of the ledger's rows has a record.
    #[error("the ledger is full: it has {rows} rows")]
    LedgerFull { rows: usize },
    /// The next version would not be below 2^63.
    #[error("there are no more versions")]
    VersionsEnd,
    /// The cell held a value before.
    #[error("the cell is taken")]
    CellTaken,
    /// An allocation failed.
    #[error("out of memory")]
    OutOfMemory,
}

impl Refusal {
    ghost use Rattle.agreed_ledger.specs.Refusals.{refusal_number, refusal_name};

    /// The number that is printed, or `None` for `OutOfMemory`.
    pub fn number(&self) -> Option<u32>
        ensures { result ≡ refusal_number self.now }
    {
        match self {
            Refusal::BadConfig => Some(17),
            Refusal::NoSuchResolver => Some(20),
            Refusal::NoSuchProxy => Some(32),
            Refusal::LedgerFull { rows: _ } => Some(50),
            Refusal::VersionsEnd => Some(51),
            Refusal::CellTaken => Some(52),
            Refusal::OutOfMemory => None,
        }
    }

    /// The name that is printed beside the number.
    pub fn name(&self) -> &'static str
        ensures { result.now ≡ refusal_name self.now }
    {
        match self {
            Refusal::BadConfig => "BadConfig",
            Refusal::NoSuchResolver => "NoSuchResolver",
            Refusal::NoSuchProxy => "NoSuchProxy",
            Refusal::LedgerFull { rows: _ } => "LedgerFull",
            Refusal::VersionsEnd => "VersionsEnd",
            Refusal::CellTaken => "CellTaken",
            Refusal::OutOfMemory => "OutOfMemory",
        }
    }
}

impl Refusal {
    ghost use Rattle.agreed_ledger.specs.Refusals.{refusal_of};

    /// Says why a cell was not set: `CellTaken` only if it held a value.
    pub fn of<K>(unset: &NotSet<K>) -> Refusal
        ensures value { result ≡ refusal_of unset.now }
        ensures either { (result ≡ refusals.CellTaken) ⊎ (result ≡ refusals.OutOfMemory) }
    {
        match unset {
            NotSet::OutOfMemory => Refusal::OutOfMemory,
            NotSet::Taken(_) => Refusal::CellTaken,
        }
    }
}

impl From<OutOfMemory> for Refusal {
    ghost from_gives = { λ _ refusal. refusal ≡ refusals.OutOfMemory };

    fn from(_error: OutOfMemory) -> Refusal {
        Refusal::OutOfMemory
    }
}
