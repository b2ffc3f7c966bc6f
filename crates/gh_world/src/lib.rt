//! The world that runs a script with the actors of a heap.
//!
//! A world has the words of a heap, the processors that run the script's goroutines in turns (`turns`), the
//! workers that mark and sweep, and the coordinator that opens cycles, ends them and has the spans swept. One step of it
//! is one atomic step of one of these actors, and [`World::step`] is one entry more of whatever list the world
//! is the state of. Who steps when is for others to say; [`World::turn_from`] says whose turn it is where they
//! take turns in ascending order. What a processor begins stands apart from its steps ([`Progress`]), so that whoever makes
//! these on other words takes the same turns, which a legal list lets begin ([`what_is_due_fits`]).
//!
//! Each operation has one step at which it acts, its point (`gh_mutator`). What a statement answers is
//! settled by what the heap that never frees answers at that point: that heap has names and paths, and no
//! pages, bits or slots, so that the two cannot be told apart is all that a script can ask for. `full` is
//! answered where the search for a slot frees the lock with nothing found, once a cycle was waited for: the
//! pass over the page words has met every span of the span class, each of them swept, and cached by another
//! seat or without a clear slot, and the search for fresh pages then found no run that is long enough.
//!
//! Until the step that sets an object's allocation bit nothing refers to its slot, and from that step on
//! all that a load of it reads is in place: its name, its pointer bits and its fields. So the words stand
//! for the heap that never frees after every single step, and not only between statements.
//!
//! What every list of the actors' steps keeps is said below: of their numbers and the handshake in `gh_lists`, of the heap in
//! `gh_law`. What a script's runs come to is defined here (specs/Runs.antt) and shown in `gh_explained`; [`points_are_statements`]
//! says which statements the points of a run are, and [`cycles_have_room`] that no list of its actors opens more cycles than there is room for. While a cycle is marked a processor may wait for it while the others store:
//! their barriers shade what they overwrite and what they write.
#![tactic(auto)]

mod event;
mod laws;
mod progress;
mod runner;
mod turns;
mod wishes;
mod world;

pub use event::{Event, Totals};
pub use laws::{cycles_have_room, points_are_statements, what_is_due_fits};
pub use progress::Progress;
pub use turns::{Next, total_of};
pub use wishes::{most_cycles, wishes_of};
pub use world::{World, layout_for, opening_trigger};
