//! The limits of a heap: how few and how many there may be of each thing that a script sets.

pub use gh_class::MOST_TYPE_WORDS;

/// The fewest pages of an arena.
pub const LEAST_PAGES: u32 = 16;
/// The most pages of an arena.
pub const MOST_PAGES: u32 = 1024;
/// The most globals; there is at least one.
pub const MOST_GLOBALS: u32 = 256;
/// The most processors; there is at least one.
pub const MOST_PROCS: u32 = 8;
/// The most workers; there is at least one.
pub const MOST_WORKERS: u32 = 4;
/// The most goroutines; there is at least one.
pub const MOST_GOROUTINES: u32 = 32;
/// The registers of a goroutine.
pub const REGISTERS: u32 = 16;
/// The most statements of a script, and so the most objects that a goroutine makes.
pub const MOST_STATEMENTS: u32 = 200_000;
