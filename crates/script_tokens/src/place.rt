//! Where in a list or an object the reader stands.

/// What was taken last.
#[derive(Clone, Copy, Drop)]
pub(crate) enum Place {
    /// A bracket or a brace that opens, a key with its colon, or nothing: a value may follow, or a
    /// key, or the end.
    Fresh,
    /// A value: a comma must follow, or the end.
    AfterValue,
}
