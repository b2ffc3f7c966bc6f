//! What holds after every list of steps of all actors: the induction that the law of all actors rests on.
//!
//! A list of steps of processors, workers and the coordinator has at each of its moments one state of the heap and its sweep
//! (`gh_state`), and while a cycle is marked a state of marking beside it (`gh_marked`). Which of the two is spoken of,
//! and what holds of it, goes by the coordinator's stage (`specs/ActorsHold.antt`). Each entry of a list keeps this: one of a
//! processor by its rights or by the sweep that it runs, one of a worker by moves of marking or by its sweep, one of the
//! coordinator by its stage.
//!
//! * **What holds** (`holds`). [`every_list_holds`] says it of every list, with what has become of objects by then
//!   (`specs/Objects.antt`). What a script sees of this is said by the law of all actors (`gh_law`).
//! * **Ties** (`ties`): what a state of marking has that is one of a list's heap.
//!
//! Some lemmas over such a state stand in `specs/`, since the law of all actors takes them too: `Standing` says which objects
//! stand, `Endings` that a goroutine ends once, `Known` and `OfLists` name what the crates below say.
#![tactic(auto)]

mod holds;
mod ties;

pub use holds::every_list_holds;
pub use ties::ties_show_what_there_is;
