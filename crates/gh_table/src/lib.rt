//! The words of a heap in one table that threads share, and the rule that ties their steps to legal lists.
//!
//! What is proved of the heap is proved of lists of single atomic steps, whoever made them and in whatever order
//! (`gh_base`, specs/Lists.antt). Threads keep no such list, and none of them sees the steps of the others. So the list
//! stands in the rule of the one table, between any two of its steps: there is one legal list, and the words are those
//! after it. Each actor's entries are known to the one seat that carries it, and to no other; an actor that no seat carries
//! has none. To keep that rule is all that a step has to do, and it can do so by what its own seat knows: what an actor may
//! ask for depends on its own entries alone, and what the step finds is the word as the list left it. Nothing is kept at
//! run time for this. A seat has no bytes, and a step is one atomic operation of the table.
//!
//! That the list is legal is all that the rule says of it. What the heap promises of its lists is no part of the rule: it
//! is proved of every legal list, once, and holds of this one whenever one asks. A seat knows more than its own entries,
//! too: it has seen the list up to its last step. So what is proved of lists says something at once, and since the
//! list only grows at its end, the list at the close began as all that was seen.
//!
//! A thread runs an actor by a [`Hand`]: the actor's machine, with the seat that carries it. Between two calls the machine
//! is what the actor is after its entries. A hand may go to another thread. In the end hands are joined, and the table is
//! closed with a seat that has all entries: what comes of it is a legal list with each thread's steps in it, in their order,
//! and the words after it. A hand that is run to its end is told a gate (`gh_gate`): that may keep it waiting between two
//! steps, and no clause knows of it.
//!
//! What a table is made for is its [`Plan`], which says what is legal. The plan is the table's key and stands in each
//! view, and no reference may stand in either. A proof about seats that go to another thread could not name its lifetime.
//!
//! A step tells its machine the word that it found (`gh_base`, `Machine`). The table's own store finds none, so after a Store
//! the machine is told 0: where it goes then does not depend on the word that it overwrites, which is a fact of each listing and is
//! proved of them (`StoresAreBlind`).
#![tactic(auto)]

mod acts;
mod hand;
mod plan;
mod rule;
mod table;

pub use acts::{Acts, Marked, Operates};
pub use hand::Hand;
pub use plan::{Plan, View};
pub use rule::{AddsEntry, FirstActorLeaves, NextStep, OneLegalList, SeatsJoined, TellsActors};
pub use table::{ActorSeat, SharedWords, close, join_other, load_cell, open, perform, split_first};
