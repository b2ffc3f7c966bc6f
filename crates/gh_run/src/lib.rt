//! A script, run by threads of its own.
//!
//! [`run`] opens a heap of the script, runs each of its actors in a thread of its own, and closes the heap. A [`HeapJob`] is
//! one actor's: a processor takes its turns, a worker marks and the coordinator leads the cycles, each until it has ended.
//! What the jobs keep (each statement's answer) and what the closed heap has (its cycles, its credit, what is live) is what one whole run of
//! the script comes to, some legal list of its actors' steps: so all that `gh_world` promises of whole runs is promised of it.
//!
//! All memory is taken before the first step of an actor. So where memory runs out no job has run.
#![tactic(auto)]

mod fault;
mod gathering;
mod job;
mod making;
mod running;
mod telling;
mod turning;

pub use fault::RunFault;
pub use job::HeapJob;
pub use making::jobs;
pub use running::{ThreadRun, run};
