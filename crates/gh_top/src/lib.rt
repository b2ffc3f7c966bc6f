//! The whole path of a script: its bytes are read, its statements run, and the lines of their
//! answers, of the cycles, of the credit and of what is live written.
//!
//! What is written is stated by the heap that never frees. The script is replayed over a plain list of
//! words: no clause here says how.
#![tactic(auto)]

mod command;
mod finding;
mod found;
mod saying;
mod status;
mod threads;

pub use command::{quiet, top};
pub use status::Status;
