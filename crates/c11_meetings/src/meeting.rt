use c11_io::Gate;
use std::sync::atomic::{AtomicBool, AtomicU64, Ordering};

/// A gate that holds the first worker until another has passed, for a number of turns at most.
#[derive(Drop)]
pub struct Meeting {
    // One more than the number of the worker that passed last.
    last: AtomicU64,
    met: AtomicBool,
    passes: AtomicU64,
    gave_up: AtomicBool,
}

// How often a worker looks whether another has passed.
const LOOKS: u32 = 100_000_000;

impl Meeting {
    pub fn new() -> Meeting {
        Meeting {
            last: AtomicU64::new(0),
            met: AtomicBool::new(false),
            passes: AtomicU64::new(0),
            gave_up: AtomicBool::new(false),
        }
    }

    /// What was seen at the gate, which was to be passed so often at least.
    pub fn seen(&self, least: u64) -> &'static str {
        if self.gave_up.load(Ordering::SeqCst) {
            "a worker waited in vain for another"
        } else if !self.met.load(Ordering::SeqCst) {
            "one worker alone passed"
        } else if self.passes.load(Ordering::SeqCst) < least {
            "it was passed too seldom"
        } else {
            "two workers met"
        }
    }
}

impl Gate for Meeting {
    fn pass(&self, worker: u32, _turn: u64) {
        self.passes.fetch_add(1, Ordering::SeqCst);
        let me = u64::from(worker) + 1;
        let before = self.last.swap(me, Ordering::SeqCst);
        if before != 0 && before != me {
            self.met.store(true, Ordering::SeqCst);
        }
        for _ in 0..LOOKS {
            if self.met.load(Ordering::SeqCst) {
                return;
            }
        }
        self.gave_up.store(true, Ordering::SeqCst);
    }
}
