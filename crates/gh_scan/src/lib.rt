//! The scan of a grey object: each object that its pointer fields name is shaded, and then it is black.
//!
//! An actor that marks takes an object from a work buffer and goes over the words of its slot in ascending
//! order. The heap's bitmap says which of them are pointer fields; a word of the bitmap speaks of 64 heap
//! words, and is loaded once for these. A pointer field that is not nil names an object, which is shaded.
//! Numbers are never taken for references.
//!
//! Goroutines run meanwhile, and may store into a field that was scanned already. The scan has no need to
//! look again: the write barrier (mbarrier.go) shades what such a store puts there. So the object is black
//! once the last word of its slot is done, and not before. A scan that stopped short would leave an object
//! white that is reachable, and the sweep would free it.
//!
//! Shading may wish for a buffer with room. The scan has that looked for itself, so that it ends with one
//! thing only: how many words it has scanned, which is what a mutator assist or a worker is paid by.
//!
//! This is Go's `scanobject` (mgcmark.go). Go splits objects above 128 KiB into parts (`oblets`); here the
//! slot of a large object is scanned as one.
#![tactic(auto)]

pub mod laws;
mod scan;

pub use scan::{Scan, ScanStage};
