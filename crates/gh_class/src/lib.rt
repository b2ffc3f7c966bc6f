//! The size classes of the heap: which slot an object gets.
//!
//! A span is a run of pages that is cut into slots of one size, and a size class says which size and
//! how many pages. An object gets a slot of the least class that holds it, so that little of the
//! slot is waste, and above 32,768 bytes it gets a span of its own. The idea is that of Go's
//! `sizeclasses.go`; the table is this project's own, small enough that each law is computed over
//! all of it, once (`laws`).
#![tactic(auto)]

mod class;
mod laws;

pub use class::{
    CLASSES, Class, MOST_SPAN_PAGES, MOST_TYPE_WORDS, SPAN_CLASSES, SizeClass, SpanClass, class_of,
    large_pages, slot_words,
};
pub use laws::size_class_laws;
