//! What holds after every list of steps of all actors, by one induction over the list.
//!
//! It goes by who makes the newest entry and by the coordinator's stage. What holds at each stage is `specs/ActorsHold.antt`:
//! between two cycles and while spans are swept the heap and its sweep are one state, of which each step is a move that its
//! actor may make; while a cycle is marked there is a state of marking beside it. What is held of every list, whatever the
//! stage, is `specs/EveryList.antt`: this is what the law of all actors is put together from (`gh_law`), and its head says why it
//! holds.

ghost use Rattle.gh_holds.specs.EveryList.{EveryListHolds};
ghost use Rattle.gh_marked.specs.Known.{Known};
ghost use Rattle.gh_holds.specs.OfLists.{LawsOfLists};

use gh_base::laws::{
    a_step_changes_one_cell, footprints_hold, packed_words_are_read_back, rows_are_written,
};
use gh_central::laws::{
    the_pass_keeps_its_facts, the_reclaiming_keeps_its_facts, the_unswept_pass_keeps_its_facts,
};
use gh_class::size_class_laws;
use gh_coord::laws::{
    the_coordinator_runs_sweeps, the_coordinator_stays_within, the_parts_are_routines,
};
use gh_cycle::beside::{
    cycles_begin_beside, marking_alone_goes_beside, objects_are_known_beside, the_marked_stand,
    the_reached_are_marked_beside,
};
use gh_cycle::opening::{bounds_last, cycles_open, reach_is_decided};
use gh_cycle::since::{cycles_begin_so, the_marked_were_reached, what_has_gone_on_lasts};
use gh_heap::laws::{each_move_leaves, facts_last, no_more_is_reached, the_heap_is_apart};
use gh_lists::{
    every_list_counts_cycles, every_list_counts_plainly, every_list_counts_wants,
    every_list_keeps_the_handshake, every_list_numbers_stacks, every_list_opens_few,
    every_list_rests_workers, every_step_changes_numbers, every_step_keeps_the_handshake,
};
use gh_marked::{every_cycle_is_marked, every_global_is_counted};
use gh_marks::laws::{
    mark_words_stay_words, marking_begins, steps_go_by_moves, the_cursor_is_small,
};
use gh_marks::picture::{cycles_begin_drawn, marking_is_drawn, the_picture_says};
use gh_mutator::laws::{
    a_processor_marks_by_moves, only_points_change, the_processor_keeps_the_handshake,
    the_processors_deeds_fit,
};
use gh_mutator_heap::beside::a_processor_goes_on_beside_marking;
use gh_mutator_heap::laws::{a_processor_runs_by_its_rights, processors_run_sweeps};
use gh_mutator_writes::laws::{
    a_processor_writes_its_own, calm_processors_mark_nothing, stacks_are_noted,
};
use gh_pages::laws::the_carve_keeps_its_facts;
use gh_state::laws::{
    counts_are_told, cycles_open_and_end, each_move_keeps,
    each_move_leaves as each_move_leaves_others, routines_are_made_of_moves, slots_are_read,
    walkers_pass,
};
use gh_sweep::laws::bits_are_objects;
use gh_tri::{an_opening_has_the_invariants, each_step_keeps_the_invariants};
use gh_worker::laws::{
    a_worker_writes_its_own, calm_workers_mark_nothing, workers_are_routines, workers_keep_places,
    workers_run_sweeps, workers_stay_within,
};

/// After every legal list of steps of all actors, in every order: there is the one state of the heap and its sweep, and what holds
/// at the coordinator's stage; while a cycle is marked there is a state of marking of this heap, with its picture, and what was
/// placed where it began is placed there still. Workers scan few words, and each global once in a cycle. What stood where a cycle
/// began stands until its marking ends; what was lost by the end of one cycle's marking is placed nowhere once a later one is
/// swept; and each page is free, or of a span for objects of one of the types. So it is by what the crates below say of steps
/// (`known`), and of lists (`lists`), which who cites this law may cite too.
pub fn every_list_holds()
    ensures holds { EveryListHolds }
    ensures known { Known }
    ensures lists { LawsOfLists }
{
    a_step_changes_one_cell();
    rows_are_written();
    footprints_hold();
    packed_words_are_read_back();
    size_class_laws();
    the_heap_is_apart();
    each_move_keeps();
    each_move_leaves();
    no_more_is_reached();
    each_move_leaves_others();
    facts_last();
    routines_are_made_of_moves();
    walkers_pass();
    cycles_open_and_end();
    counts_are_told();
    slots_are_read();
    the_pass_keeps_its_facts();
    the_unswept_pass_keeps_its_facts();
    the_reclaiming_keeps_its_facts();
    the_carve_keeps_its_facts();
    mark_words_stay_words();
    the_marked_stand();
    bits_are_objects();
    processors_run_sweeps();
    workers_run_sweeps();
    the_coordinator_runs_sweeps();
    the_coordinator_stays_within();
    the_parts_are_routines();
    a_processor_runs_by_its_rights();
    a_processor_marks_by_moves();
    a_processor_goes_on_beside_marking();
    a_processor_writes_its_own();
    calm_processors_mark_nothing();
    stacks_are_noted();
    only_points_change();
    the_processors_deeds_fit();
    marking_begins();
    steps_go_by_moves();
    the_cursor_is_small();
    an_opening_has_the_invariants();
    each_step_keeps_the_invariants();
    cycles_begin_drawn();
    marking_is_drawn();
    the_picture_says();
    the_processor_keeps_the_handshake();
    workers_are_routines();
    workers_keep_places();
    a_worker_writes_its_own();
    workers_stay_within();
    calm_workers_mark_nothing();
    reach_is_decided();
    bounds_last();
    cycles_open();
    cycles_begin_beside();
    cycles_begin_so();
    objects_are_known_beside();
    marking_alone_goes_beside();
    what_has_gone_on_lasts();
    the_reached_are_marked_beside();
    the_marked_were_reached();
    every_list_keeps_the_handshake();
    every_step_keeps_the_handshake();
    every_list_counts_cycles();
    every_list_counts_plainly();
    every_list_numbers_stacks();
    every_list_rests_workers();
    every_list_counts_wants();
    every_list_opens_few();
    every_step_changes_numbers();
    every_cycle_is_marked();
    every_global_is_counted();
}
