//! What a processor begins.

/// A statement of goroutine `g` with its numbers, or a step of its processor's own. Registers
/// (`d`, `b`, `s` and `v`) are below 16; `t` is the number of a type, `k` that of a field or a
/// global.
#[derive(Clone, Copy, Debug, PartialEq, Eq)]
pub enum Op {
    /// Makes an object of type `t`; register `d` names it.
    New { g: u32, d: u32, t: u32 },
    /// Register `d` takes field `k` of the object in `b`.
    Load { g: u32, d: u32, b: u32, k: u32 },
    /// Field `k` of the object in `b` takes the value in `v`.
    Store { g: u32, b: u32, k: u32, v: u32 },
    /// Register `d` takes global `k`.
    GetGlobal { g: u32, d: u32, k: u32 },
    /// Global `k` takes the value in `v`.
    SetGlobal { g: u32, k: u32, v: u32 },
    /// Register `d` takes the number `n`.
    Int { g: u32, d: u32, n: u64 },
    /// Register `d` takes the value in `s`.
    Move { g: u32, d: u32, s: u32 },
    /// Register `d` takes nil.
    Nil { g: u32, d: u32 },
    /// Asks for a cycle and waits until it is swept.
    Gc { g: u32 },
    /// Looks whether the world is to stop.
    Poll,
    /// The goroutine ends: its registers are gone.
    End(u32),
    /// The processor leaves, once its goroutines have ended.
    Leave,
}
