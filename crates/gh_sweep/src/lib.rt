//! Sweeping a span: what frees the objects that a cycle has not marked.
//!
//! Once a cycle's marking is over, each object that it has not marked is garbage: no goroutine and no
//! global reaches it. The heap does not search for it: the span that it lies in is swept, while goroutines
//! run, before anybody places an object in that span. [`Sweep`] cuts the span's alloc bits to its mark bits, clears the mark
//! bits for the next cycle, and counts what it kept and what it freed.
//!
//! Whoever comes first to an unswept span sweeps it: a processor that wants a slot, a worker, or the
//! coordinator. They come at the same time, and the span's head word decides between them. Its sweep
//! number is 2 below the heap's generation while the span is unswept, 1 below while it is swept, and
//! equal to it afterwards. When a cycle ends the generation moves on by 2, and with that all spans are
//! unswept. Who swaps the head from the word that was found to the one with the next number sweeps the
//! span, and everybody else has lost it. With a store in place of the swap two of them could sweep it,
//! and the later one would find the marks cleared by the earlier, and free what was marked.
//!
//! The number of the swept span is written last. Who meets it may take the span at once, place objects
//! in it and free its pages, so by then all bits must be cut and all counts told. And of a word's bits
//! those of alloc are cut before the marks are cleared, since the marks say which to cut.
//!
//! Several actors sweep at once, each its own span, while others take swept spans, place objects in them, lay
//! out fresh ones and free empty ones. None of them sees the steps of the others: a sweep relies on its
//! span's words alone, which nobody else changes, and each step of anybody is one of a few moves that leave
//! them so (`specs/Moves.antt`). So at every moment (`Good` of `specs/Shared.antt`) nothing that is marked is
//! freed, and what the counts tell, what is still to be told and what is not swept yet are together what
//! stood where the cycle ended (`specs/AtEnd.antt`). Once each head has the generation's number the counts
//! are exact: `gh_state`, where the words of the heap are one state with its sweep, says so.
//!
//! What the routine asks for and where it goes is its listing, in specs/Listing.antt; above that stand
//! the laws of [`laws`]. This is Go's `sweepLocked.sweep` and `sweepLocker.tryAcquire` (mgcsweep.go),
//! where the mark bits become the alloc bits (`mspan.allocBits = mspan.gcmarkBits`) and a span has its
//! own counts (`nfreed`, `allocCount`).
#![tactic(auto)]

pub mod laws;
mod sweep;

pub use sweep::{Sweep, SweepEnd, SweepStage, SweptSpan};
