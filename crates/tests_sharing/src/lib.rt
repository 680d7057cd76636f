//! The tests of one proxy and one resolver that several threads enter at once, of requests that come
//! again, and of a column with many rows; of four proxies and three resolvers behind locks, by one
//! thread, and of great sizes.
//!
//! They are run with ample memory, where a call that only gives up is found: a thread that were refused
//! memory in the midst of a commit would leave others waiting for its row. Those of great sizes are made
//! for `rt test`: in the build with checks of `rt try --test` some take minutes, so it needs `--seconds 600`.
#![tactic(auto)]

#[cfg(test)]
mod larger;
#[cfg(test)]
mod sharing;
