//! What a line asks: a new cluster, an event or a proxy to show; checked, or as it is written
//! (`Raw`).

use model::{Config, ProxyNumber};
use system_keys::{Bytes, Items};
use turn_world::Event;
use turns_run::RawEvent;

/// What a line asks of a session (this project's profile).
#[derive(Debug, Drop)]
pub enum Line {
    /// To begin a new cluster with these numbers in place of the last one.
    Cluster(Config),
    /// To carry out an event.
    Event(Event),
    /// To show a proxy.
    Show(Show),
}

/// A proxy that is to be shown, with the tags of some keys.
#[derive(Debug, Drop)]
pub struct Show {
    /// The number of the proxy.
    pub proxy: ProxyNumber,
    /// The keys whose tags are asked: any bytes.
    pub ask: Items<Bytes>,
}

/// A line as it is written, before the keys, values and ranges of its event are checked.
#[derive(Drop)]
pub(crate) enum RawLine {
    /// Begins a cluster with these numbers, which are within their limits.
    Cluster(Config),
    /// An event.
    Event(RawEvent),
    /// Shows a proxy.
    Show(Show),
}
