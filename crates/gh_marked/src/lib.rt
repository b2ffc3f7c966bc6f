//! A cycle's marking to its end, over every list of steps of all actors, and what one step leaves of all that holds.
//!
//! Processors, workers and the coordinator step in one list. While a cycle is marked there is a state of marking of it
//! (`gh_marks`), and here it is said what each step is to that state, whoever makes it: so what stood where the cycle began is
//! marked where it ends, and workers scan no more words than there are. The steps of processors go on beside marking; what they
//! keep for it, and what is known of the heap meanwhile, is asked for (`specs/Marked.antt`) and proved above (`gh_holds`).
//!
//! * **Marking** (`marked`). [`every_cycle_is_marked`] is an induction from a cycle's begin to the check of its end.
//!   [`every_global_is_counted`] says what workers count.
//! * **The one state** (`specs/State.antt`): what the state of the heap and its sweep is to a list, and what is known beside it
//!   while a cycle is marked. `specs/Drawn.antt` and `specs/Tied.antt` say what ties a state of marking to the list.
//! * **One step** (`proofs/OneStep`), for the induction of `gh_holds`: a step of a processor is a move of the one state, by its
//!   rights or of the sweep that it runs (`Landing.antt`); what is said of it, of its stacks and of the globals holds behind it
//!   (`OwnSide.antt`), and what is known of all others lasts (`Moves.antt`), also beside marking (`Beside.antt`). Objects placed and
//!   not counted, page words and whole spans are followed in files of their own. `specs/Known.antt` is what the crates below say.
//!
//! `specs/Checking.antt` says what the coordinator has found where it looks for the end, `specs/Levels.antt` and `Weights.antt`
//! what of a cycle is scanned so far.
#![tactic(auto)]

mod marked;

pub use marked::{every_cycle_is_marked, every_global_is_counted};
