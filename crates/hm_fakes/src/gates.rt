//! Gates that hold calls inside their regions, so that a test sees which calls run at the same time. None holds a call
//! for more than 10,000,000 turns, so no test waits forever.

use hm_base::RegionId;
use hm_outside::Gate;
use std::sync::atomic::{AtomicU64, Ordering};
use std::thread;

/// Waits until a word is at least so much, or for 10,000,000 turns. It says whether it came to that.
pub fn comes_to(word: &AtomicU64, least: u64) -> bool {
    for _ in 0u32..10_000_000 {
        if word.load(Ordering::SeqCst) >= least {
            return true;
        }
        thread::yield_now();
    }
    false
}

/// Holds each call until so many as are wanted have come inside their regions.
#[derive(Drop)]
pub struct Meeting {
    pub wanted: u64,
    pub inside: AtomicU64,
    pub missed: AtomicU64,
}

impl Meeting {
    /// A gate at which so many calls are to meet.
    pub fn of(wanted: u64) -> Meeting {
        Meeting {
            wanted,
            inside: AtomicU64::new(0),
            missed: AtomicU64::new(0),
        }
    }

    /// How many calls came, and how many of them waited in vain.
    pub fn counts(&self) -> (u64, u64) {
        (
            self.inside.load(Ordering::SeqCst),
            self.missed.load(Ordering::SeqCst),
        )
    }
}

impl Gate for Meeting {
    fn inside(&self, _region: RegionId, _caller: u32) {
        self.inside.fetch_add(1, Ordering::SeqCst);
        if !comes_to(&self.inside, self.wanted) {
            self.missed.fetch_add(1, Ordering::SeqCst);
        }
    }
}

/// Holds the calls of caller 1 until they are let go.
#[derive(Drop)]
pub struct Holding {
    pub inside: AtomicU64,
    pub let_go: AtomicU64,
}

impl Holding {
    /// A gate that no call has come to.
    pub fn new() -> Holding {
        Holding {
            inside: AtomicU64::new(0),
            let_go: AtomicU64::new(0),
        }
    }
}

impl Gate for Holding {
    fn inside(&self, _region: RegionId, caller: u32) {
        if caller == 1 {
            self.inside.fetch_add(1, Ordering::SeqCst);
            comes_to(&self.let_go, 1);
        }
    }
}
