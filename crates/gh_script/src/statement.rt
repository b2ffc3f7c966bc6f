//! Statements and settings.

/// A statement of a goroutine with its numbers: [`gh_base::Op`] without the goroutine.
#[derive(Clone, Copy, Debug, PartialEq, Eq)]
pub enum Stmt {
    /// `new d t`
    New { d: u32, t: u32 },
    /// `load d b k`
    Load { d: u32, b: u32, k: u32 },
    /// `store b k v`
    Store { b: u32, k: u32, v: u32 },
    /// `gload d k`
    GetGlobal { d: u32, k: u32 },
    /// `gstore k v`
    SetGlobal { k: u32, v: u32 },
    /// `int d n`
    Int { d: u32, n: u64 },
    /// `move d s`
    Move { d: u32, s: u32 },
    /// `nil d`
    Nil { d: u32 },
    /// `gc`
    Gc,
}

/// A number for each setting of a script.
#[derive(Clone, Copy, Debug, PartialEq, Eq)]
pub struct Settings {
    /// Processors, 1 to 8.
    pub procs: u32,
    /// Workers, 1 to 4.
    pub workers: u32,
    /// Pages of 8192 bytes, 16 to 1024.
    pub arena: u32,
    /// Globals, 1 to 256.
    pub globals: u32,
    /// How much may be allocated between two cycles, in percent of what is live; 0 is off.
    pub gogc: u32,
    /// The least goal of the heap, in bytes.
    pub minheap: u32,
}
