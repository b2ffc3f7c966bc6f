//! An actor of a heap.

use gh_coord::Coord;
use gh_mutator::Mutator;
use gh_worker::Worker;

/// An actor of a heap, whichever it is.
#[derive(Drop)]
pub enum HeapActor<'s> {
    /// A processor, which runs what operations are begun.
    Runs(Mutator<'s>),
    /// A worker, which marks until the last cycle is swept.
    Marks(Worker),
    /// The coordinator, which leads the cycles.
    Leads(Coord),
}
