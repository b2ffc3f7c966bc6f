//! What every cycle's marking comes to.
//!
//! It is an induction of its own over the list, from where a cycle begins to where the coordinator has checked its end. Whoever
//! marks, there is a state of marking with the words as they stand, and each actor has in hand what its stage says. What it
//! needs of a processor is that each of its steps is made of moves which its seat may make; what it needs of the heap is what is
//! known where a cycle begins, and lasts (`specs/Marked.antt`). Both are proved above, by an induction that uses this one of each
//! start of the list (`gh_holds`).

ghost use Rattle.gh_marked.specs.EveryCycle.{EveryCycleIsMarked, EveryGlobalIsCounted};

use gh_base::laws::{a_step_changes_one_cell, packed_words_are_read_back};
use gh_lists::{
    a_processor_writes_its_own, every_list_counts_plainly, every_list_keeps_the_handshake,
    every_list_rests_workers, every_step_keeps_the_handshake,
};
use gh_marks::laws::{
    facts_last, hands_follow, marking_begins, marking_ends_clean, steps_go_by_moves,
};
use gh_mutator::laws::a_processor_marks_by_moves;
use gh_worker::laws::{
    workers_are_routines, workers_count_globals, workers_keep_places, works_by_moves,
};

/// While a cycle is marked there is a state of marking of this list, in which each actor has in hand what its stage says; workers
/// have scanned no more than the cycles before had, and so much of this one. Where the coordinator has checked its end nothing is
/// left to be marked, and all that is reached is marked.
pub fn every_cycle_is_marked()
    ensures { EveryCycleIsMarked }
{
    a_step_changes_one_cell();
    packed_words_are_read_back();
    a_processor_marks_by_moves();
    a_processor_writes_its_own();
    works_by_moves();
    workers_are_routines();
    workers_keep_places();
    marking_begins();
    steps_go_by_moves();
    hands_follow();
    facts_last();
    marking_ends_clean();
    every_list_keeps_the_handshake();
    every_step_keeps_the_handshake();
}

/// Workers count each global as often as a cycle's marking has ended, and while one is marked each besides that the cursor has
/// passed, but for those that they have in hand.
pub fn every_global_is_counted()
    ensures { EveryGlobalIsCounted }
{
    a_processor_writes_its_own();
    workers_are_routines();
    workers_count_globals();
    every_list_keeps_the_handshake();
    every_list_rests_workers();
    every_list_counts_plainly();
}
