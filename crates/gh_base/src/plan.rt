//! The numbers that a layout is made of, by name.

use crate::limits::LEAST_PAGES;

/// How many there are to be of everything that has words. [`Layout::new`](crate::Layout::new)
/// makes the layout, or refuses the plan.
#[derive(Clone, Copy, Debug, PartialEq, Eq)]
pub struct LayoutPlan {
    /// The arena's pages of 1024 words that are in use as the heap opens. Today all pages are in
    /// use from the opening on, so this is `pages`.
    pub opened: u32,
    /// The pages of 1024 words that the arena may come to have at most, 16 to 1024.
    pub pages: u32,
    /// The globals, 1 to 256.
    pub globals: u32,
    /// The processors, 1 to 8.
    pub procs: u32,
    /// The workers, 1 to 4.
    pub workers: u32,
    /// The goroutines, 1 to 32.
    pub goroutines: u32,
}

impl LayoutPlan {
    /// The smallest heap's: the fewest pages, all of them in use from the opening on, and one of
    /// everything else.
    pub const LEAST: LayoutPlan = LayoutPlan {
        opened: LEAST_PAGES,
        pages: LEAST_PAGES,
        globals: 1,
        procs: 1,
        workers: 1,
        goroutines: 1,
    };
}
