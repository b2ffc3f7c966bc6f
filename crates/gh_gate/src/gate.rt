//! Where an actor is held between two of its steps.

/// Is called by an actor between two steps, whenever its marks have changed. It may keep the actor waiting; it answers
/// nothing, and has no way to the heap.
pub trait Gate {
    /// `who` is the actor's seat, from 0. `marks` is what it counts of itself so far: a processor its answered statements,
    /// a worker the words that it has scanned, the coordinator how often it has stored the phase word.
    fn at(&self, who: u8, marks: u64);
}

/// Lets each actor go on at once.
pub struct Open;

impl Gate for Open {
    fn at(&self, _who: u8, _marks: u64) {}
}
