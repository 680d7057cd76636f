//! How two proxies that meet stand to each other.

/// How far a proxy has come, as another is met.
#[derive(Clone, Copy, Debug, PartialEq, Eq)]
pub enum Meeting {
    /// Both are at the same version.
    Same,
    /// The proxy is behind the other.
    Behind,
    /// The proxy is ahead of the other.
    Ahead,
}
