//! The words of a heap, and the step on one of them.
//!
//! Whoever runs machines has words of this kind: it takes what a machine asks for, makes the step,
//! and tells the machine what the step found. [`Plain`] keeps them in a list, for one thread; [`opening_list`] gives them to
//! whoever keeps them otherwise.
#![tactic(auto)]

mod plain;

pub use plain::{Plain, Words, opening_list};
