//! Watches over threads: a test ends although its threads wait for one another.

use std::sync::atomic::{AtomicU64, Ordering};
use std::thread;
use std::time::{Clock, Duration};

/// How many milliseconds lie between two looks.
const STEP: u64 = 2;

/// Sleeps for this number of milliseconds.
pub fn pause<R: Clock>(rt: &R, millis: u64) {
    thread::sleep(rt, Duration::from_millis(millis));
}

/// Whether the count reaches `wanted` before this number of milliseconds of sleep.
pub fn reaches<R: Clock>(rt: &R, count: &AtomicU64, wanted: u64, millis: u64) -> bool {
    for _look in 0..millis / STEP {
        if wanted <= count.load(Ordering::SeqCst) {
            return true;
        }
        pause(rt, STEP);
    }
    false
}

/// Whether `done` becomes 1 within half a minute of sleep. If it does not, threads wait for one another.
pub fn ends_in_time<R: Clock>(rt: &R, done: &AtomicU64) -> bool {
    reaches(rt, done, 1, 30_000)
}
