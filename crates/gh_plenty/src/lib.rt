//! Why no `new` of a generated script is answered `full`.
//!
//! A `new` is answered `full` only where there was no room at its step (`gh_world`): each page is taken then, and each
//! span of its span class is full, or another processor has it cached. Where all objects are of one type, no span of
//! another class is ever laid out. So where such a span has one page, each page is one, and those that are cached are
//! few, as a processor has one of them at the most. In all others each slot is taken, each by an object of its own that
//! was made. A script that makes fewer objects than that is never answered `full`, whether or not anything is freed.
//!
//! A generated script makes at most 200,000 objects of 24 bytes, and its arena has 1,024 pages with 341 slots each.
//!
//! This crate has definitions and laws, and no other code. Go's heap grows instead (`grow`, mheap.go).
#![tactic(auto)]

mod laws;

pub use laws::{generated_scripts_are_never_full, scripts_with_plenty_are_never_full};
