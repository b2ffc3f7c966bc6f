//! Real threads.
ghost use Rattle.std.specs.Prelude.{◌≡◌, ℕ};

use crate::job::{CountToken, Spawner};

/// Starts one thread for each job. It refuses where the system makes no thread.
#[derive(Drop)]
pub struct Threads {
    faults: u64,
    ran: u64,
}

impl Threads {
    /// A spawner without a fault, which has run no jobs.
    pub fn new() -> Threads
        ensures { (result.faults ≡ 0) × (result.ran ≡ 0) }
    {
        Threads { faults: 0, ran: 0 }
    }
}

impl Spawner for Threads {
    ghost faults = { λ s. s.faults };

    ghost ran = { λ s. s.ran };

    ghost refuses = { λ _. ⊥ };

    fn may_start(&self) -> bool {
        true
    }

    fn count_fault(&mut self, _token: &CountToken) {
        self.faults = self.faults.saturating_add(1);
    }

    fn count_run(&mut self, _token: &CountToken) {
        self.ran = self.ran.saturating_add(1);
    }
}
