//! What a gate sees of the actors of a script with two processors and two workers, and how it holds one of them.

use std::sync::atomic::{AtomicU64, Ordering};
use std::thread;

/// Where the actors sit.
pub const FIRST: u8 = 0;

pub const SECOND: u8 = 1;

pub const COORDINATOR: u8 = 4;

/// How often an actor that is held looks at the others' marks, before it goes on without what it waits for. It lets other threads run
/// after each look, so threads that are run at all come to what it waits for long before.
const LOOKS: u32 = 10_000_000;

/// The marks that the actors have last come to their gate with.
#[derive(Drop)]
pub struct Marks {
    /// How many statements each of the processors has answered.
    pub first: AtomicU64,
    pub second: AtomicU64,
    /// How often the coordinator has stored the phase word.
    pub phases: AtomicU64,
    /// How often a worker has come: each time it has scanned a global or an object.
    pub scans: AtomicU64,
    /// How many of the holds ended with what they waited for.
    pub met: AtomicU64,
    /// How many ended without it, at the limit of their looks.
    pub missed: AtomicU64,
}

impl Marks {
    /// Nobody has come.
    pub fn new() -> Marks {
        Marks {
            first: AtomicU64::new(0),
            second: AtomicU64::new(0),
            phases: AtomicU64::new(0),
            scans: AtomicU64::new(0),
            met: AtomicU64::new(0),
            missed: AtomicU64::new(0),
        }
    }

    /// The actor of this seat has come with these marks.
    pub fn note(&self, who: u8, marks: u64) {
        match who {
            FIRST => self.first.store(marks, Ordering::SeqCst),
            SECOND => self.second.store(marks, Ordering::SeqCst),
            COORDINATOR => self.phases.store(marks, Ordering::SeqCst),
            _ => add(&self.scans, 1),
        }
    }

    /// Holds the actor that calls this until each of these words is as great as is said, or its looks are at their limit.
    pub fn hold(&self, wanted: &[(&AtomicU64, u64)]) {
        for _ in 0..LOOKS {
            if have_come(wanted) {
                add(&self.met, 1);
                return;
            }
            thread::yield_now();
        }
        add(&self.missed, 1);
    }

    /// How many holds ended with what they waited for, and how many without.
    pub fn holds(&self) -> (u64, u64) {
        (read(&self.met), read(&self.missed))
    }
}

/// Each of these words is as great as is said.
fn have_come(wanted: &[(&AtomicU64, u64)]) -> bool {
    for (word, least) in wanted {
        if read(word) < *least {
            return false;
        }
    }
    true
}

/// What the word holds now.
pub fn read(word: &AtomicU64) -> u64 {
    word.load(Ordering::SeqCst)
}

/// Adds to the word.
pub fn add(word: &AtomicU64, more: u64) {
    word.fetch_add(more, Ordering::SeqCst);
}
