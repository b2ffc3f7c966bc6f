//! Fresh pages for a span.
//!
//! A span is a run of pages that is cut into slots of one size, or holds one large object. When no
//! span that stands has room, one is made of pages that are in no span: [`Carve`] looks for them,
//! first fit, and writes their page words. What it asks for and where it goes is its listing, in
//! specs/Listing.antt; above that stand the laws of [`laws`]: it takes the first fit, and its
//! stores leave the words of the whole span and nothing else.
//!
//! Go keeps a tree of free runs and a bitmap (mpagealloc.go); here the page words themselves are
//! walked, each by one load.
#![tactic(auto)]

mod carve;
pub mod laws;

pub use carve::{Carve, CarveStage, Span};
