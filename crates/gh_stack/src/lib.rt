//! The scan of a goroutine's stack: each object that a register names is shaded, and then the stack is black.
//!
//! A stack is scanned once in a cycle, and as a whole: its goroutine runs no statement meanwhile, since its own
//! processor scans it. Each reference in a register is shaded, in the order of the registers; nil and numbers
//! name no object. Then one store says in which cycle the stack was scanned. It comes last: whoever finds the
//! end of marking takes a stack whose word says this cycle as black, so no register may be left then.
//!
//! A black stack needs no second look. The write barrier sees to that (mbarrier.go): what a goroutine loads
//! afterwards is marked, or is still found from a grey object.
//!
//! Shading is the affair of another crate: [`ScanStack`] ends with the wish to shade a reference, and goes on
//! when it is told that it is shaded. This is Go's `scanstack` (mgcmark.go), over registers in the place of
//! frames.
#![tactic(auto)]

pub mod laws;
mod scan_stack;

pub use scan_stack::{REGISTER_COUNT, ScanStack, StackStage};
