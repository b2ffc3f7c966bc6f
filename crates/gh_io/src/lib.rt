//! The outside of the heap's program, as two traits: where a script comes from, and where its
//! output goes.
//!
//! The program is proved against these traits, so its theorems speak of any source and any sink. A
//! fault of the outside is never silent: each one raises a count that the stream keeps, and a
//! failed call is promised only where the count rose. So a program that reports a fault can be held to
//! the count. Streams in memory tell their bytes, fail at the calls that a test names, and give or take
//! their bytes in pieces as small as it asks for: a call that gives or takes less than it was asked for is no fault.
//! The streams of the process tell no bytes: they and the system are trusted.
#![tactic(auto)]

pub mod laws;
mod memory;
mod sink;
mod source;
mod standard;

pub use memory::{MemSink, MemSource};
pub use sink::{Sink, write_all};
pub use source::{Failed, ReadError, Source, read_up_to};
pub use standard::{StdSink, StdSource};
