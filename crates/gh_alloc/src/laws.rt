//! Laws of the routines. The functions do nothing; what they ensure is proved.

ghost use Rattle.gh_base.specs.declared.layout.Layout.{Layout};
ghost use Rattle.gh_base.specs.Machines.{IsRoutine};
ghost use Rattle.gh_central.specs.Sweeping.{RunsSweeps};
ghost use Rattle.gh_alloc.specs.Find as finding;
ghost use Rattle.gh_alloc.specs.FindFacts.{FindsByItsRights};
ghost use Rattle.gh_alloc.specs.Marking.{AnObjectIsMarkedBeforeItIsMade};
ghost use Rattle.gh_alloc.specs.Place as placing;
ghost use Rattle.gh_alloc.specs.PlaceFacts.{PlacesByItsRights};
ghost use Rattle.gh_alloc.specs.Quiet.{AllocationIsQuiet};
ghost use Rattle.gh_alloc.specs.Rounds.{NoRoomIsAfterReclaim};
ghost use Rattle.gh_alloc.specs.Search.{asks, goes, listing, sweep_generation, sweep_in};
ghost use Rattle.gh_alloc.specs.SearchFacts.{SeeksByItsRights};
ghost use Rattle.gh_alloc.specs.Trigger.{AnObjectAsksAtTheTrigger};

use gh_base::laws::rows_are_written;
use gh_bitmap::laws::{setting_is_a_routine, setting_keeps_its_facts};
use gh_cache::laws::{the_search_is_a_routine, the_search_keeps_its_facts};
use gh_central::laws::{
    giving_back_keeps_its_facts, passes_run_sweeps, spans_go_by_routines, the_pass_keeps_its_facts,
    the_reclaiming_keeps_its_facts, the_unswept_pass_keeps_its_facts,
};
use gh_class::size_class_laws;
use gh_heap::laws::{each_move_keeps, facts_last, rights_follow, the_heap_is_apart};
use gh_pages::laws::{the_carve_is_a_routine, the_carve_keeps_its_facts};

/// The search for a slot is a routine: its numbers and the routine that it runs stay sound, each step is on a word that there
/// is, and it writes what a sweep does and the lock.
pub fn finding_is_a_routine()
    ensures { (l : Layout) → IsRoutine l (finding.listing l) }
{
    size_class_laws();
    the_search_is_a_routine();
    the_carve_is_a_routine();
    spans_go_by_routines();
}

/// So is the search where a collector runs.
pub fn searching_is_a_routine()
    ensures { (l : Layout) → IsRoutine l (listing l) }
{
    size_class_laws();
    finding_is_a_routine();
    spans_go_by_routines();
}

/// And so is the making of an object in its slot: it writes the slot's words and bits, the heap's bytes, and a page word where
/// the object is large.
pub fn making_is_a_routine()
    ensures { (l : Layout) → IsRoutine l (placing.listing l) }
{
    setting_is_a_routine();
    spans_go_by_routines();
}

/// Whatever the making of an object is told: while marking is on, the step that sets its alloc bit comes
/// behind one that has set the same bit of the marks. While marking is off, no step of it is on a mark word.
pub fn an_object_is_marked_before_it_is_made()
    ensures { AnObjectIsMarkedBeforeItIsMade }
{}

/// Whatever the making of an object is told: it tells that a cycle is to be asked for exactly where it loads a
/// trigger that the heap's bytes with the object's reach, by what the step that added them found while marking is
/// off.
pub fn an_object_asks_at_the_trigger()
    ensures { AnObjectAsksAtTheTrigger }
{}

/// Whatever any number of processors do beside it: each step of the search, short of the one that finds no
/// room and those of its sweeps, is a move that its seat may make, and each is on a word that there is; what
/// is known at each stage holds then and lasts, also behind each step of a sweep. A slot that it gives lies in a
/// span that the seat holds, and no object stands there. Where it finds none, no span of the span class is
/// cached, in the last round each that nobody owns is full, and no run of free pages fits. It sweeps by the
/// heap's layout and for its sweep generation.
pub fn finding_keeps_its_facts()
    ensures { FindsByItsRights }
{
    the_search_keeps_its_facts();
    the_pass_keeps_its_facts();
    the_unswept_pass_keeps_its_facts();
    giving_back_keeps_its_facts();
    the_carve_keeps_its_facts();
    rights_follow();
    facts_last();
    size_class_laws();
}

/// Whatever any number of processors do beside it: each step of `Search`, short of the one that finds no room and
/// those of its sweeps, is a move that its seat may make, and each is on a word that there is; what is known at
/// each stage holds then and lasts, also behind each step of a sweep. A slot that it gives lies in a span that
/// the seat holds, and no object stands there. Where it finds none, no span of the span class is cached, each that
/// nobody owns is full, each span of any class that nobody owns is swept and an object stands in it, and no run of
/// pages fits, also if those of spans without an owner and an object are counted as free. It sweeps by the heap's
/// layout and for its sweep generation. Nothing here says that a span is full when it is given back, nor that an
/// object stays.
pub fn searching_keeps_its_facts()
    ensures { SeeksByItsRights }
{
    finding_keeps_its_facts();
    the_reclaiming_keeps_its_facts();
    each_move_keeps();
    rights_follow();
    facts_last();
}

/// While a search runs a sweep its steps are those of the sweep, until that has ended; and it begins one only of a
/// span whose head it finds with the number before the sweep generation.
pub fn searches_run_sweeps()
    ensures { (l : Layout) → RunsSweeps (asks l) (goes l) (λ _. l) sweep_generation sweep_in }
{
    passes_run_sweeps();
}

/// Whatever any number of processors do beside it: while the seat claims the slot, each step of the making of an
/// object is a move that it may make, on a word that there is, and what is known at each stage holds then and
/// lasts. The heap that never frees changes exactly by the store of the alloc bit; at the end the object stands at
/// its place.
pub fn making_keeps_its_facts()
    ensures { PlacesByItsRights }
{
    rows_are_written();
    rights_follow();
    setting_keeps_its_facts();
    giving_back_keeps_its_facts();
    the_heap_is_apart();
}

/// Whatever `Search` is told, it ends with `NoRoom` only where these steps stand one behind the other:
/// it took the lock; it gave a cached span back, if one was cached; the pass over swept spans ended with
/// none, and then that over unswept ones, and then the search for fresh pages; `Reclaim` ran to its end; the
/// pass over swept spans ended with none once more, and then the search for fresh pages; it freed the lock.
/// A large object needs no pass. It had the lock all the while, so that it took it once and freed it once.
pub fn no_room_is_after_reclaim()
    ensures { NoRoomIsAfterReclaim }
{}

/// The routines by which a slot is looked for, and an object made in it, store no phase, no sweep generation, no
/// number of cycles begun and no acknowledgement, nor change these in another way.
pub fn allocation_is_quiet()
    ensures { AllocationIsQuiet }
{}
