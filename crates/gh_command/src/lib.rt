//! The command line: what its words ask for.
//!
//! The words are read by `clap`. What they ask for is stated by the words alone, and a reader of the statement need not know
//! the parser.
#![tactic(auto)]

mod line;
mod line_laws;

pub use line::{Line, read_line};
pub use line_laws::numbers_are_in_range;
