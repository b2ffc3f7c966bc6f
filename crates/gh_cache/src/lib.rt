//! The next clear slot of a span that a processor has cached.
//!
//! A span is a run of pages that is cut into slots of one size, and each slot has an alloc bit, which
//! is set once an object is in it. A processor that has the span cached takes its slots in order: it
//! keeps a cursor, before which no slot is clear, and [`NextSlot`] looks for the next clear slot from
//! there on. What it asks for and where it goes is its listing, in specs/Listing.antt; above that
//! stands the law of [`laws`]: it finds the least clear slot, and none exactly where all are taken.
//!
//! Go looks at 64 slots at once, in a copy of the span's bits (`mspan.allocCache` of mheap.go, by
//! `nextFreeFast` in malloc.go and `nextFreeIndex` in mbitmap.go); here each slot costs one load of a word of the row of alloc bits, which is the heap's
//! own, 64 heap words to a word.
#![tactic(auto)]

pub mod laws;
mod next_slot;

pub use next_slot::{Cached, NextSlot, SlotStage};
