//! Tests of a cluster that is larger than the others, and of sizes far beyond those of other tests.

mod beginning;
mod committing;
mod sizes;
mod sizes_of_batches;
mod sizes_of_calls;
mod stories;
