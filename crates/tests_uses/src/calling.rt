//! Tests of callers of the libraries.

mod asking;
mod committing;
mod comparing;
mod from_nothing;
mod promising;
mod sequencing;
mod stories;
mod values;
mod without_threads;
