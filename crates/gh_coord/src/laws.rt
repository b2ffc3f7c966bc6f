//! Laws of the coordinator and its parts. The functions do nothing; what they ensure is proved.

ghost use Rattle.gh_base.specs.declared.layout.Layout.{Layout};
ghost use Rattle.gh_coord.specs.GoingOn.{GoesOnUntilDone};
ghost use Rattle.gh_coord.specs.Handshake.{LeadsHandshake};
ghost use Rattle.gh_coord.specs.MarkingEnds.{EndsWithNothingLeft};
ghost use Rattle.gh_coord.specs.PartsRoutines.{PartsAreRoutines, TheCoordinatorIsARoutine};
ghost use Rattle.gh_coord.specs.Sweeping.{TheCoordinatorRunsSweeps};
ghost use Rattle.gh_coord.specs.Triggering.{TheTriggerIsByWhatIsLive};
ghost use Rattle.gh_coord.specs.Within.{TheCoordinatorStaysWithin};

use gh_base::laws::packed_words_are_read_back;
use gh_sweep::laws::the_sweep_is_a_routine;

/// Each part of the coordinator is a routine: it keeps what it knows of its own numbers, each of its steps is on a word that
/// there is and writes a row of its footprint, and by a store it goes over to the same, whatever word that overwrites.
pub fn the_parts_are_routines()
    ensures { (l : Layout) → PartsAreRoutines l }
{
    packed_words_are_read_back();
    the_sweep_is_a_routine();
}

/// So is the coordinator, in a heap with processors and pages.
pub fn the_coordinator_is_a_routine()
    ensures { TheCoordinatorIsARoutine }
{
    the_parts_are_routines();
}

/// Each step of the coordinator is on a word that there is, whatever it is told, in a heap with processors and pages.
pub fn the_coordinator_stays_within()
    ensures { TheCoordinatorStaysWithin }
{}

/// The coordinator has a further step exactly where it is not done: so it is at first, and so after each step
/// that it asked for.
pub fn it_goes_on_until_done()
    ensures { GoesOnUntilDone }
{}

/// Each step of the coordinator is one of the handshake of a stop. It stores a stop behind a phase that is off, or
/// that of marking: behind one that is off only where its last step found a request for a cycle, or for the last cycle,
/// for which each processor was found to be gone. A cycle begins, its marking ends, and a phase that is no stop and not
/// the last is stored in a stopped world alone: once each processor and each worker was found to have acknowledged the
/// stop, or to be gone.
pub fn the_coordinator_leads_the_handshake()
    ensures { LeadsHandshake }
{
    the_parts_are_routines();
}

/// The coordinator ends a cycle's marking only where it has found that nothing is left to mark: since it told the
/// world to stop it has found that each processor and each worker has acknowledged that stop or is gone, and
/// behind that the cursor past the globals, the word of each stack at the cycle's number or above it, and each
/// buffer held or with no entry. Since it told the world to stop it has written no word but the bank.
pub fn nothing_is_left_to_mark()
    ensures { EndsWithNothingLeft }
{}

/// While the coordinator sweeps a span it makes the steps of that sweep until it has ended, and no others. It begins one
/// only where it finds the head of a span with the number before the sweep generation. Where it tells that a cycle is
/// swept, it has swept the span at each page itself since it stored the sweep generation, or has found by the page's
/// word that none is unswept there and that nobody sweeps one: a span that another sweeps it waits for.
pub fn the_coordinator_runs_sweeps()
    ensures { TheCoordinatorRunsSweeps }
{
    the_parts_are_routines();
}

/// The trigger that the coordinator stores behind a sweep is by the live bytes that its step before has loaded, and lies between
/// these and the goal that is by them. The step before that has loaded the tally. Where it opens a cycle it stores the one that
/// is never reached.
pub fn the_trigger_is_by_what_is_live()
    ensures { TheTriggerIsByWhatIsLive }
{}
