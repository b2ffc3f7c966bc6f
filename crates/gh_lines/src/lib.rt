//! The bytes of each line of output.
//!
//! Whatever runs a script, a replay or running threads, tells it in the same lines. So each line
//! stands here once: as a definition in `specs/`, which the crates above cite for what they write,
//! and as a call of [`LineBuf`] that fills a buffer with it. The buffer stands on the stack, a line
//! always fits, and no call takes memory or fails: once a run has begun, telling it cannot go
//! wrong. Where the bytes then go is for others to say.
#![tactic(auto)]

mod answer;
mod buffer;
mod dump;
mod refusal;
mod totals;

pub use answer::has_line;
pub use buffer::LineBuf;
