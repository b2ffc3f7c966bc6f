//! What a processor does between its statements, among a collector: it polls, waits for a cycle, and leaves.
//!
//! A collector stops the world to switch marking on and off, and frees what is not marked by then. Whatever a stopped
//! processor kept to itself would be missed: an object in its buffer would not be scanned, and the free slots of its spans
//! would not be seen. So a [`Poll`] gives all back, by [`Give`], before it acknowledges a stop. While marking is on it scans
//! the stacks of the processor's goroutines, one at a time, by [`MarkStack`]; and a poll that is no part of a wait ends with
//! room in the buffer that is held, for the write barrier of the next store. A [`Wait`] polls until a cycle that began later
//! is swept; and [`Leave`] gives all back for good.
//!
//! A processor has one `Poll` for its whole life. That keeps what the processor alone knows, the [`Local`]: its registers, its
//! cached spans, its buffer, and what it owes and has drawn. Its statements read and change it by the calls of the poll, and so do
//! the write behind its barrier and the assist, which run with the buffer that is held.
//!
//! Each routine has a file of code and one of definitions, of its name: what it asks for at each of its stages, and where its
//! step leads. What is proved here is their place in the handshake of a stop, and their moves of marking.
//!
//! The words and the steps follow Go's `mcache.go`, `mgcwork.go`, `mgcmark.go` and `proc.go`.
#![tactic(auto)]

mod assist;
mod barrier;
mod give;
pub mod laws;
mod leave;
mod local;
mod mark_stack;
mod poll;
mod wait;

pub use give::{Cache, Give, GiveStage};
pub use leave::{Leave, LeaveStage};
pub use mark_stack::{MarkStack, MarkStackStage};
pub use poll::{Local, Poll, PollStage, Scanned, Stacks};
pub use wait::{Wait, WaitStage};
