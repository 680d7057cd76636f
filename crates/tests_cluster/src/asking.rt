//! Tests of proxies that ask workers in threads of their own.

mod doors;
mod full_inboxes;
mod one_proxy;
mod runs;
mod serving;
mod stories;
mod sums;
