//! The processor, as a machine that takes one atomic step at a time.
//!
//! A statement is not one step. A load reads the page word of its object (for the words of its slot),
//! the bit that tells a pointer from a number, the field, and, where the field is a reference, the name
//! of the object found. A `new` runs two machines of `gh_alloc`, the search for a slot and the making of
//! the object in it. A poll loads the phase.
//!
//! Each operation has one step at which it acts, its point: from that step on it counts as done, for
//! whoever compares what the processor answers with a heap that never frees. For a load it is the load of
//! the field, for a store the store of it, for a `new` the step that sets the allocation bit, or, where
//! there is no room, the step that frees the heap's lock. A fault acts at the step that finds its cause.
//!
//! [`Mutator`] is the machine. Each statement has a file of code and one of definitions, of its name:
//! what it asks for at each of its stages, and in one function what its step does there. That says all: the
//! value that its register takes, whether it goes on or how it is answered, and that it acts. The machine's
//! listing (specs/Listing.antt) puts the statements together, and src/run.rt applies them. An index that a
//! word of the heap told is taken modulo the words of its row, so every step is on a word that there is,
//! whatever was found.
//!
//! A processor runs among a collector. What it does for that between its statements is `gh_poll`'s: it polls, waits for a
//! cycle, and leaves. Its poll, a [`gh_poll::Poll`] for its whole life, keeps its registers, its cached spans and its buffer, and
//! each statement reads and changes them there. While marking is on a store of a pointer runs the write barrier of `gh_barrier`,
//! with the buffer that the processor holds: a poll that is no part of a wait ends with room in it. A `gc`, and a `new` that finds
//! no room, run a [`gh_poll::Wait`]. While spans are unswept the search of a `new` sweeps some of them, as workers and the
//! coordinator do at the same time.
//!
//! What is proved of it stands in three crates, and what its polls, waits and leaves are by themselves in `gh_poll`. Here: what
//! follows from its listing alone (how many steps an operation takes, where it acts, what a fault leaves, what is owed), its place
//! in the handshake of a stop, and its moves of marking while it polls, waits or leaves. Two crates above have no code:
//! `gh_mutator_writes` says which words it writes, and `gh_mutator_heap` what it does to the heap.
//!
//! The words and the steps follow Go's `malloc.go`, `mcache.go` and `mbitmap.go`.
#![tactic(auto)]

mod assist;
pub mod field;
mod global;
pub mod laws;
mod load;
mod mutator;
mod new;
mod processor;
mod register;
mod run;
mod step;
mod store;
mod task;

pub use global::{Global, GlobalStage};
pub use load::{Load, LoadStage};
pub use mutator::Mutator;
pub use new::{New, NewStage, Wanted};
pub use processor::Processor;
pub use register::{Register, Source};
pub use step::{Step, Then};
pub use store::{Store, StoreStage};
pub use task::Task;
