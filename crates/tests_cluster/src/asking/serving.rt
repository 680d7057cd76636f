//! Workers in threads of their own.

use std::alloc::Global;
use std::sync::Wait;
use std::thread;
use std::thread::{Scope, Threads};

/// What the threads of workers do, of which each gets an `E`.
pub(crate) trait Works<E> {
    /// Serves the inbox of a resolver.
    fn work<R: Wait>(&self, rt: &R, alloc: Global, end: E);
}

/// Runs a thread for each worker, and returns when these have ended.
pub(crate) fn serve<E: Send + Drop, P: Works<E> + Sync, R: Threads + Wait + Sync>(
    rt: &R,
    alloc: Global,
    parts: &P,
    ends: Vec<E>,
) {
    thread::scope(thread::scope_env(), rt, |scope| {
        start_workers(scope, rt, alloc, parts, ends)
    })
}

/// Starts a thread for each worker. The end of one that cannot be started is dropped: it is missing in
/// the sum of what is left.
fn start_workers<'s, X, E: Send + Drop + 's, P: Works<E> + Sync, R: Threads + Wait + Sync>(
    scope: &'s Scope<'s, X>,
    rt: &'s R,
    alloc: Global,
    parts: &'s P,
    ends: Vec<E>,
) {
    for end in ends {
        let _started = scope.spawn(move || parts.work(rt, alloc, end));
    }
}
