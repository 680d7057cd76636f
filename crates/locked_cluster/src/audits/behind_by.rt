//! Why an audit fails.

use model::{ResolverNumber, Version};
use thiserror::Error;

/// The first resolver that has not come as far as the proxy that is audited.
#[derive(Clone, Copy, Debug, PartialEq, Eq, Error)]
#[error("resolver {resolver} has reached {version} only")]
pub struct BehindBy {
    /// The number of the resolver.
    pub resolver: ResolverNumber,
    /// The version that it has reached.
    pub version: Version,
}
