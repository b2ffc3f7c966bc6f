//! Plain loops of atomic operations.

use std::alloc::{AllocFailed, Global};
use std::sync::atomic::{AtomicU64, Ordering};

/// Three words, which stand for those that a call of `load` or `store` makes its steps on. They lie where other threads could see
/// them, so that no operation on them may be left out.
#[derive(Drop)]
pub struct Words {
    page: AtomicU64,
    bits: AtomicU64,
    field: AtomicU64,
}

impl Words {
    /// The words, in memory of their own.
    pub fn new(alloc: Global) -> Result<Box<Words>, AllocFailed<Words>> {
        Box::new(
            alloc,
            Words {
                page: AtomicU64::new(1),
                bits: AtomicU64::new(2),
                field: AtomicU64::new(7),
            },
        )
    }

    /// As many rounds of three loads. It answers the field that was loaded last.
    pub fn loads(&self, times: u32) -> u64 {
        let mut last = 0;
        for _ in 0..times {
            self.page.load(Ordering::SeqCst);
            self.bits.load(Ordering::SeqCst);
            last = self.field.load(Ordering::SeqCst);
        }
        last
    }

    /// As many rounds of two loads and a store. It answers the field, which is loaded at the end.
    pub fn stores(&self, times: u32) -> u64 {
        for _ in 0..times {
            self.page.load(Ordering::SeqCst);
            self.bits.load(Ordering::SeqCst);
            self.field.store(7, Ordering::SeqCst);
        }
        self.field.load(Ordering::SeqCst)
    }
}
