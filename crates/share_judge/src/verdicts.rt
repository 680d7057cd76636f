//! The list of the verdicts on a share.

use model::Verdict;
use system_keys::Items;

/// One verdict for each part of a share, in order.
pub type Verdicts = Items<Verdict>;
