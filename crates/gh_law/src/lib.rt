//! The law of all actors: what holds after every legal list of steps of processors, workers and the coordinator.
//!
//! Each crate of an actor says what its steps are over the heap, by its rights, and what they are to marking and to a sweep.
//! Here all of them step, in every order, and what each knows lasts beside the steps of the others. So a script cannot tell the
//! heap from one that never frees, whoever marks and sweeps when.
//!
//! * **All actors** (`actors`). [`every_list_of_actors_stands`] is the law, by one induction over the list; the head of its file
//!   says why it holds.
//! * **Credit** (`credit`): what workers earn is spent, lapses, or is in the bank.
//! * **Room** (`room`): at every moment there is a grey work buffer with room that nobody holds.
//!
//! What the numbers of cycles are in a list, and who stands where in the handshake of a stop, is `gh_lists`'s. That one state of the
//! heap goes through every list is `gh_holds`'s. What a script's
//! runs come to is `gh_world`'s, which has the code that makes the steps.
#![tactic(auto)]

mod actors;
mod credit;
mod room;

pub use actors::every_list_of_actors_stands;
pub use credit::every_list_balances;
pub use room::every_list_has_room;
