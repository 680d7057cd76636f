//! The limits of a threads script: 1 to 4,096 rows, and a list of batches for each proxy.

ghost use Rattle.std.specs.Prelude.{◌≡◌};
ghost use Rattle.threads_scripts.specs.Limits.{is_within_limits};

use crate::script::RawThreads;
use model::is_from_one_to;

// The most rows of a ledger (this project's profile).
const ROWS_LIMIT: u64 = 4_096;

/// Whether the ledger has from 1 to 4,096 rows, and there is one list of work for each proxy (this
/// project's profile).
pub(crate) fn is_within_limits(script: &RawThreads) -> bool
    ensures { result ≡ is_within_limits script.now }
{
    is_from_one_to(ROWS_LIMIT, script.rows as u64)
        && script.work.as_slice().len() == script.config.proxies()
}
