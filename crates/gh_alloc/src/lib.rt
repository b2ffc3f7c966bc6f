//! Placing an object in the heap.
//!
//! [`Find`] looks for the slot of a new object. A small object gets the next clear slot of the span
//! that its processor has cached for its span class; where none is left, the processor gives that
//! span back and caches another one under the heap's lock: a swept span with a clear slot, or else an
//! unswept one, which it sweeps itself, with a clear slot then, or else a fresh one. A large object gets a
//! fresh span of its own. [`Search`] is for a heap with a collector: where `Find` finds nothing, it sweeps
//! each span that nobody owns, frees the pages of empty ones, and looks once more. [`Place`] then makes the
//! object in its slot: it clears the fields, writes the birth word and the pointer bits, and sets the alloc
//! bit last, from which on the slot is taken, counts the slot's bytes, and tells where the heap's bytes reach the
//! trigger, so that a cycle is due.
//!
//! A goroutine's search sweeps as the collector does, by the steps of `Sweep` (gh_sweep), which are no moves
//! of the heap. So the laws of a search say of its own steps which moves they are, of a sweep's steps what is known
//! behind each of them, and that its steps are those of the sweep as long as one runs.
//!
//! This is Go's `mallocgc` and `mcache.refill` over `mheap.alloc` (malloc.go, mcache.go, mheap.go).
//! All are machines over those of the crates below. What they ask for and where they go is their
//! listing, in specs/Find.antt, specs/Search.antt and specs/Place.antt, composed from the listings of
//! those machines.
#![tactic(auto)]

mod find;
pub mod laws;
mod place;
mod search;
mod sought;

pub use find::{After, Find, FindStage};
pub use place::{Place, PlaceStage};
pub use search::{Search, SearchStage};
pub use sought::{CachedSpan, Found, Sought, given_head};
