//! Tests that calls find memory in states that come late: with more than two proxies and resolvers,
//! after moves, forgetting and refusals, and with long lists. No contract says that memory is
//! found, so a call could want it just there. What calls return is said by their contracts.
//!
//! A call that is refused memory ends its test with that error: that it changes nothing, and
//! returns the same when it is made again, the other tests of this crate show.

mod of_clusters;
mod of_histories;
mod of_proxies;
mod of_tags;
