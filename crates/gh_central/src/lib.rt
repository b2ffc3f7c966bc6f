//! What the central lists of spans do.
//!
//! In Go a `mcentral` keeps, for each span class, the spans that no processor has cached: those
//! with room and those without, swept and not swept. Here there are no lists yet. What they would
//! hold is what the page words say, and three passes walk these words from page 0 on. [`SweptPass`]
//! finds what the list of swept spans with room would hand out. [`UnsweptPass`] sweeps the spans of a
//! class that are not swept, one after the other, until one has room then. [`Reclaim`] frees the pages
//! of empty spans, so that spans of other classes may have them, and sweeps spans of all classes for
//! that. [`GiveBack`] puts a cached span back. All are made under the heap's lock.
//!
//! A slot is free exactly where the alloc bit of its first word is clear, so whether a span has
//! room is read from its alloc words. A word decides by the slots that begin in it; one in which
//! none begins decides nothing.
//!
//! A sweep of a span is `Sweep` of `gh_sweep`. It takes no lock, so others may sweep spans meanwhile: who
//! comes second to a span has lost its sweep. [`UnsweptPass`] goes past it, since the next pass may take it;
//! [`Reclaim`] waits for it, since it may miss no empty span. What they know of the heap they know by its
//! moves, and of a sweep's steps by what these leave (specs/Sweeping.antt).
//!
//! What the routines ask for and where they go is in specs/SweptPass.antt, specs/UnsweptPass.antt,
//! specs/Reclaim.antt and specs/GiveBack.antt. Above that stand the laws of [`laws`].
#![tactic(auto)]

mod give;
pub mod laws;
mod pass;
mod reclaim;
mod slots;
mod unswept;

pub use give::{GiveBack, GiveStage};
pub use pass::{PassStage, SweptPass};
pub use reclaim::{Reclaim, ReclaimStage};
pub use unswept::{UnsweptPass, UnsweptStage};
