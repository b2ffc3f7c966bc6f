//! What a processor does to the heap, among any number of others.
//!
//! `gh_mutator` has the processor as a machine. Here its steps are the moves of `gh_heap`, by the rights that it has at each
//! stage: the spans that it has cached are its own, and while it has the lock so are the pages that it lays out.
//!
//! * **What is known of it** at each task is in `specs/Facts.antt`, and while it polls, waits or leaves in
//!   `specs/PollHeap.antt`: its registers hold what they hold in the heap that never frees, and its rights are those of
//!   its seat. Each step of its own leads to what is known then, and the steps of others leave it (`specs/Runs.antt`).
//! * **A sweep** is run by its search for a slot alone, which begins one at the head of an unswept span
//!   (`specs/Sweeping.antt`).
//! * **While a cycle is marked** each of its steps is made of moves of marking too, and the heap and marking belong
//!   together behind it (`specs/Beside.antt`): there the write barrier, the mark before an object is made, and what a
//!   goroutine can see meet.
//!
//! The proofs go by task: `proofs/Owning/` for the heap, `proofs/Holding/` for polls, waits and leaves, `proofs/Going/` for
//! the steps beside marking.
#![tactic(auto)]

pub mod beside;
pub mod laws;
