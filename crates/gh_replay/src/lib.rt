//! Runs of scripts over a plain list of words, under a budget of turns.
//!
//! A turn is one step of one actor, a processor, a worker or the coordinator: one atomic operation on one
//! word. Who steps when a schedule says ([`Schedule`]); one that says nothing has the actors take turns in
//! ascending order ([`nothing_said_is_in_turn`]), and one may keep an actor from its turns for a while
//! ([`others_take_turns`]). What a run comes to is explained by the list of its turns. By one schedule a script has
//! one such list, so that a run ends within the budget or runs out of turns, and never both ([`one_outcome`]). A
//! replay may be checked: then the heap that never frees is run beside it, and agrees ([`Report::ever`]).
//! [`parse_list`] reads the list of a schedule from a text. The lines of the answers, of the cycles, of the credit and of
//! what is live are told one by one, in the order in which they are written ([`Report`]).
#![tactic(auto)]

mod check;
mod fault;
mod laws;
mod list;
mod place;
mod report;
mod row;
mod schedule;
mod turns;

pub use fault::ReplayFault;
pub use laws::{nothing_said_is_in_turn, one_outcome, others_take_turns};
pub use list::{MOST_ITEMS, parse_list};
pub use report::Report;
pub use row::Row;
pub use schedule::{Schedule, Turn, Until};
pub use turns::replay;
