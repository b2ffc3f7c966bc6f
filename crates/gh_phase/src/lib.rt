//! What an actor knows of the collector's phase, and how it goes on after a stop.
//!
//! The collector switches marking on and off only while the world is stopped: it writes the phase word with
//! the number of a new stop, and waits until each processor and each worker has acknowledged that number. In
//! between, each actor keeps a copy of what it needs of the phase, its [`View`]: whether marking is on, the
//! sweep generation, and how many cycles have begun. It reads these anew when it goes on after a stop, and
//! nowhere else. They stay until the next stop, except that the phase is finished once the last cycle is
//! swept. So a statement that began with the write barrier off ends with it off.
//!
//! An actor that finds a stop puts away what it has in hand, and then runs [`Resume`]: it acknowledges the
//! stop, waits until the world runs again, and reads its view. A stop that follows at once is
//! acknowledged in the same way. The processors and the workers have this alike.
//!
//! In Go a goroutine that is to stop parks its processor, and goes on once `startTheWorld` hands that out
//! again (`stopTheWorldWithSema` and `gcstopm`, proc.go); its view is `gcphase` and `writeBarrier.enabled`
//! (mgc.go) and `mheap.sweepgen` (mheap.go), which no goroutine sees change while it runs.
#![tactic(auto)]

mod handshake;
pub mod laws;
mod resume;
mod view;

pub use handshake::InHandshake;
pub use resume::{Resume, ResumeStage, Resumed};
pub use view::{RunPhase, View};
