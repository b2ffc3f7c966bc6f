//! The worker: an actor that marks and sweeps in the background while goroutines run.
//!
//! Marking has two sources of grey objects: the roots, and what is grey already. A worker takes grey
//! objects from the work buffers and scans each, which shades what it refers to; where no buffer has one
//! it takes the next global that nobody has claimed, and shades what that refers to. So each worker goes on
//! until all globals are claimed and all buffers are empty, and no two take the same object or global: an
//! entry is taken from a buffer that one alone holds, and a global is claimed by an atomic add.
//!
//! What it has scanned pays for marking that goroutines would do otherwise. So it counts the words, and hands them
//! over to a bank of credit (`gh_credit`), 2,000 or more at a time, between two objects. At a stop it hands over
//! the rest before it acknowledges, so that while the world is stopped the bank has all that workers have scanned.
//!
//! Between two objects it loads the phase. At a stop it gives its buffer back before it acknowledges: the
//! collector looks for grey objects in the buffers that nobody holds, and one that a stopped worker kept
//! would be missed, and its object freed. Once the last cycle is swept it says that it is gone, and is done.
//!
//! With marking off it sweeps: between two loads of the phase it looks at one page, and where that is the
//! head of an unswept span it sweeps the span. It goes round the arena, page by page, so that it
//! acknowledges a stop after one sweep at the most. A span that another has begun to sweep it leaves to that
//! one, and need not wait: the coordinator waits for each.
//!
//! This is Go's `gcBgMarkWorker` (mgc.go) with `gcDrain` (mgcmark.go). Go parks its workers between cycles
//! and starts them by the scheduler; here each loads the phase until marking is on. Go claims roots by
//! `work.markrootNext`, in blocks; here the globals are the roots, and each is claimed by itself.
#![tactic(auto)]

pub mod laws;
mod worker;

pub use worker::{Worker, WorkerStage};
