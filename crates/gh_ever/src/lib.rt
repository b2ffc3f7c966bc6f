//! The heap that never frees, plainly: what a script means.
//!
//! The collector is right exactly where no script can tell its heap from this one, so this one
//! stands beside it: it is given the same statements in the order of their points, and its answers
//! are compared. Its contract is the definition itself: an [`Ever`] stands for the heap `ever_of`
//! of its lists, each call answers and changes what the definition says of that heap, and
//! [`Ever::reach`] tells whether a path of pointer fields leads to an object.
//!
//! It is kept as lists. A type may have 65,536 words and a script may make 200,000 objects, so no field has a place of its own:
//! a cell is kept for each global, register and field where something was stored, and a field without a cell holds nil or 0, by
//! its type. Two hash maps stand beside the lists, so that a statement looks through neither: one has the cell of each such place,
//! the other the type of each object. A statement stores at most one value and makes at most one object, so room for as many of
//! each as there are statements is reserved when the heap opens, in the lists and in the maps, and no later call takes memory.
//! [`Ever::reach`] alone passes over the lists.
#![tactic(auto)]

mod cell;
mod ever;
mod kept;
mod object;
mod opening;
mod reach;
mod value;

pub use ever::Ever;
