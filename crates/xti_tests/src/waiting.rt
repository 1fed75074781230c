//! Threads that wait for each other.

use std::sync::atomic::{AtomicBool, Ordering};
use std::thread;

/// How often a thread looks whether another has come so far, before it gives up.
const TRIES: u32 = 100_000_000;

/// Whether the flag is set, now or in a while.
pub(crate) fn comes(flag: &AtomicBool) -> bool {
    for _try in 0..TRIES {
        if flag.load(Ordering::SeqCst) {
            return true;
        }
        thread::yield_now();
    }
    false
}
