//! Flags, by which a test orders what its threads do.
use std::sync::atomic::{AtomicBool, Ordering};
use std::thread;
use std::time::{Clock, Duration};

/// How often a flag is looked at, once in ten milliseconds.
pub(crate) const TURNS: usize = 1_000;

/// A flag that is down until it is raised.
#[derive(Drop)]
pub(crate) struct Flag {
    up: AtomicBool,
}

impl Flag {
    /// A flag that is down.
    pub(crate) fn new() -> Flag {
        Flag {
            up: AtomicBool::new(false),
        }
    }

    /// Raises the flag.
    pub(crate) fn raise(&self) {
        self.up.store(true, Ordering::SeqCst);
    }

    /// Whether the flag is up.
    pub(crate) fn is_up(&self) -> bool {
        self.up.load(Ordering::SeqCst)
    }

    /// Waits until the flag is up, but no longer than ten seconds; and returns whether it is.
    pub(crate) fn wait<C: Clock>(&self, clock: &C) -> bool {
        for _ in 0..TURNS {
            if self.is_up() {
                return true;
            }
            thread::sleep(clock, Duration::from_millis(10));
        }
        false
    }
}
