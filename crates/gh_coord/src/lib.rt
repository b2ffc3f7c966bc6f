//! The coordinator: who opens cycles, finds out that their marking is over, has the spans swept, and tells
//! that they are.
//!
//! One actor runs all of a cycle, and all others follow the phase word that it stores. So what is to happen
//! in order happens in the order of its steps. [`Coord`] is that actor, a routine put together from parts, each a
//! routine too: [`Stop`], [`Open`], [`Watch`], [`Close`], [`SweepAll`], [`Count`] and [`Tell`].
//!
//! It stops the world twice in a cycle. A stop is over once each processor and each worker has acknowledged
//! it, and who acknowledges has nothing begun, holds no work buffer and caches no span.
//!
//! The first stop opens the cycle. The request is cleared before the cycle begins, so that one that comes
//! later is not lost but asks for a further cycle, and one that comes between is served by this one. The
//! cycle's number is stored before the phase word, so that who goes on knows the cycle that is marked.
//!
//! The second stop ends its marking. While the world runs the coordinator looks again and again at the words
//! that say whether something is left to mark. But it looks at them one after the other, and what it has
//! seen may not be so any more: a buffer that it found empty may be filled by a worker that held another, and
//! what somebody holds it cannot see at all. So that it found each as wanted is a hint alone. It stops the
//! world and looks once more; now nothing is held and nothing moves, so that all words are as wanted at one
//! moment, and no grey object is left. Where one is not, marking goes on.
//!
//! The next sweep generation is what ends the marking: with it all spans are unswept. Then the world runs on,
//! and spans are swept while it does: by the coordinator, by workers, and by whoever looks for a slot. Where
//! another has begun to sweep a span the coordinator waits until that is done; only when each span is swept are
//! the counts of the cycle whole. It keeps them, and tells that the cycle is swept. No cycle begins before that.
//!
//! Once every processor is done it runs one last cycle, which nobody asks for, and behind it all are done.
//!
//! What paces the next cycle it stores as numbers of `gh_pacer`: behind a cycle the trigger by what that left live, and in
//! the opening the work and the slack. While a cycle is under way the trigger is one that no allocation reaches, so
//! that none asks for a second. An allocation loads it, and asks for a cycle where the heap's bytes reach it (`gh_alloc`,
//! `gh_mutator`). By the work and the slack it owes marking for what it allocates while a cycle is marked (`gh_assist`).
//!
//! What the parts and the coordinator ask for and where they go are their listings, in specs/. specs/Parts.antt says where a
//! stage is in a cycle, and specs/Events.antt what a step comes to, so that what is said of each step is said of each event.
//! Above these stand the laws of [`laws`]. In Go this is spread over `gcStart`, `gcMarkDone`, `gcMarkTermination` and
//! `gcSweep` (mgc.go), which whatever goroutine gets there first runs, under locks. Go finds that marking is
//! over with a barrier that flushes each P's buffers (the ragged barrier of `gcMarkDone`).
#![tactic(auto)]

mod close;
mod coord;
mod count;
mod cycles;
pub mod laws;
mod open;
mod pacing;
mod stop;
mod sweep_all;
mod tell;
mod watch;

pub use close::{Close, CloseStage};
pub use coord::{Coord, CoordStage};
pub use count::{Count, CountStage, Counted};
pub use cycles::{Cycle, Cycles};
pub use open::{Open, OpenStage};
pub use pacing::first_trigger;
pub use stop::{Stop, StopStage};
pub use sweep_all::{SweepAll, SweepAllStage};
pub use tell::{Tell, TellStage};
pub use watch::{Watch, WatchStage, Watched};
