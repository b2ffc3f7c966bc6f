//! What a statement is to whoever runs it, and what its answer is in the output.
//!
//! A script says what its goroutines do; a heap knows operations, each with the goroutine that asks
//! for it, and answers them. Whatever runs a script, a replay or running threads, goes over from the
//! one to the other in the same way, so both ways stand here once: [`operation`] makes an operation
//! of a statement, [`work`] says what a goroutine does next, and [`tell`] makes a line of an answer.
//! When a goroutine has its next turn, and where the line goes, is for others to say.
#![tactic(auto)]

mod telling;
mod working;

pub use telling::tell;
pub use working::{operation, work};
