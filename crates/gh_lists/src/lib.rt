//! Lists of steps of all actors of a heap: processors, workers and the coordinator, and what every legal list keeps of the
//! words by which these tell each other how far they are.
//!
//! A list has one entry for each atomic step, the newest first: who made it, what it asked of which word, what it found, and
//! which operation it began, if any. It is legal where each actor steps as its machine says. Here it is said who is at which
//! seat of a list, and what follows from the machines alone, with no word of what objects are: who waits at a stop, how many
//! cycles have begun and are swept, who asked for them, and that workers rest while no cycle is marked.
//!
//! * **The handshake** (`handshake`). The law of the handshake (`gh_phase`) is of any actors that say where they stand in it.
//!   Here these are any number of processors and of workers, and one coordinator at the seat behind them. [`Actor`] is one of
//!   them: clauses on lists speak of it, and no value of it is made.
//! * **The numbers of cycles** (`numbers`): those of the words and those that the coordinator keeps, by the part of the cycle
//!   that it is in; how often each is stored; who asks for a cycle; and that there are no more than were asked for, but the last.
//!
//! What an entry is to the actor at a seat, and what it leaves of the numbers, are small lemmas that the crates above need at
//! many places. They stand in `specs/` with the definitions: `Seats` and `Steps` say who steps, `Resting` and `Stepping` what
//! an entry is to a processor, `Starts` what a start of a list is, `Beginning` which operations may begin, `Frames`, `Quiet`,
//! `Aside` and `Writing` what a step leaves of the numbers.
#![tactic(auto)]

mod handshake;
mod numbers;

pub use gh_mutator_writes::laws::a_processor_writes_its_own;
pub use handshake::{Actor, every_list_keeps_the_handshake, every_step_keeps_the_handshake};
pub use numbers::{
    cycles_are_few, every_list_counts_cycles, every_list_counts_plainly, every_list_counts_wants,
    every_list_numbers_stacks, every_list_opens_few, every_list_rests_workers,
    every_step_changes_numbers, processors_begin_few,
};
