//! Which span a search for a slot takes of those that are not swept.
//!
//! The pass of `gh_central` for an unswept span takes the lowest one of its span class in which a slot is clear once it is
//! swept, and by its own sweep's counts: it goes past a span only where that left no slot clear, or where another was first
//! to sweep it. Here that is said of all the words that it was told. What the pass knows of the heap itself while it does so
//! is said in `gh_central`. This crate has definitions and a law, and no other code.
#![tactic(auto)]

mod laws;

pub use laws::the_unswept_pass_takes_the_first;
