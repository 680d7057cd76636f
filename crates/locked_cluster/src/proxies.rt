//! Proxies behind locks, what they begin, and what they return.

mod begun;
mod columns;
mod locked_proxy;
mod meeting;
mod noted_finished;
mod noted_routing;
mod ready;

pub use begun::Begun;
pub use columns::Columns;
pub use locked_proxy::LockedProxy;
pub use meeting::Meeting;
pub use noted_finished::NotedFinished;
pub use noted_routing::NotedRouting;
pub use ready::Ready;
