//! The numbers of the protocol, each under the name of what it counts. They are plain numbers: the
//! names say to a reader which one a place wants, and no check tells them apart.

/// A commit version; later batches have greater ones.
pub type Version = u64;

/// The number of a resolver, from 0.
pub type ResolverNumber = usize;

/// The number of a commit proxy, from 0.
pub type ProxyNumber = usize;

/// The row of a record: its place in the order of all batches, from 0.
pub type RowNumber = usize;

/// The number of a transaction in its batch, from 0.
pub type TransactionNumber = usize;
