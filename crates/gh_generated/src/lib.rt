//! Generated scripts end in one heap, whichever goroutine goes on when.
//!
//! The goroutines of a script step in any order, so two runs of a script may give different answers and
//! keep different objects. Those of a generated script (`gh_script`) share no object, since each goes to
//! one global of its own and to what its registers hold. So where there is room for each object, every
//! order of their operations leaves the heap that never frees the same. This crate says so of every
//! script whose goroutines keep apart. It has definitions and laws, and no other code.
#![tactic(auto)]

mod laws;

pub use laws::{generated_scripts_leave_one_heap, goroutines_apart_leave_one_heap};
