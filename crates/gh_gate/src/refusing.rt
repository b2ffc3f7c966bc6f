//! No threads.
ghost use Rattle.std.specs.Prelude.{◌≡◌, ℕ, ⊤};

use crate::job::{CountToken, Spawner};

/// Refuses each time, and counts a fault. It stands for a system that makes no thread.
#[derive(Drop)]
pub struct NoSpawn {
    faults: u64,
    ran: u64,
}

impl NoSpawn {
    /// A spawner that has not yet refused.
    pub fn new() -> NoSpawn
        ensures { (result.faults ≡ 0) × (result.ran ≡ 0) }
    {
        NoSpawn { faults: 0, ran: 0 }
    }
}

impl Spawner for NoSpawn {
    ghost faults = { λ s. s.faults };

    ghost ran = { λ s. s.ran };

    ghost refuses = { λ _. ⊤ };

    fn may_start(&self) -> bool {
        false
    }

    fn count_fault(&mut self, _token: &CountToken) {
        self.faults = self.faults.saturating_add(1);
    }

    fn count_run(&mut self, _token: &CountToken) {
        self.ran = self.ran.saturating_add(1);
    }
}
