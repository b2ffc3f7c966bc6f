//! The heap as a library, for threads of a caller's own.
//!
//! A [`Heap`] has the words that all threads share, in one table (`gh_table`); each step of an actor is one atomic operation on
//! one of them. It opens with one [`Handle`] an actor: the processors, then the workers, and the coordinator last. A handle is
//! the right to run its actor, and there is no other; it may go to another thread. What threads do is then one legal list of
//! the steps of a script's actors, of which `gh_world` proves all that it promises ([`answers_are_evers`]).
//!
//! A processor is asked for one operation at a time. Which one is the caller's choice: no script's order is kept. But each
//! legal list has no more `new` and `gc` of a goroutine than the script, since the coordinator's list of cycles is reserved for
//! those. So a handle counts what is left, and which goroutines have ended. What it shows is so by its actor's own entries, and
//! is enough for an operation to begin.
//!
//! A load or a store ends within a few steps, whatever others do, and takes no runtime. A new object, a collection, a poll and
//! the leave may wait for others, and so they take one. Workers and the coordinator run until they are done; the coordinator
//! is only once all processors have left. [`run_all`] runs all of them, each in a thread of its own, and gathers their handles.
#![tactic(auto)]

mod calls;
mod closing;
mod fault;
mod handle;
mod heap;
mod laws;
mod load;
mod opening;
mod others;
mod running;
mod shows;

pub use closing::Closed;
pub use fault::{OpenFault, RunFault};
pub use handle::Handle;
pub use heap::Heap;
pub use laws::{answers_are_evers, loads_see_stores, reads_see_writes};
pub use running::{Play, run_all};
