//! Laws of what a processor does to the heap. The functions do nothing; what they ensure is proved.

ghost use Rattle.gh_mutator_heap.specs.PollHeapLaws.{LeavesByRights, PollsByRights, WaitsByRights};
ghost use Rattle.gh_mutator_heap.specs.Runs.{RunsByItsRights};
ghost use Rattle.gh_mutator_heap.specs.Sweeping.{ProcessorsRunSweeps};

use gh_alloc::laws::{making_keeps_its_facts, searches_run_sweeps, searching_keeps_its_facts};
use gh_assist::laws::{assists_are_quiet, assists_are_within};
use gh_barrier::laws::{writes_by_moves, writing_is_within};
use gh_base::laws::{packed_words_are_read_back, rows_are_written};
use gh_class::size_class_laws;
use gh_heap::laws::{rights_follow, the_heap_is_apart};
use gh_mutator::laws::{sweeps_are_run_on, what_is_wanted_fits};

/// Whatever any number of actors do beside it: each step of a poll is a move that its seat may make, on a word
/// that there is, and what is known at each stage holds then and lasts. At a stop each cached span is given back
/// under the lock; while the processor waits at the stop it holds nothing, and what it knows lasts also while spans
/// are swept. Once it goes on it knows the new sweep generation, and so it ends.
pub fn polls_by_rights()
    ensures { PollsByRights }
{
    rights_follow();
}

/// The same of a wait.
pub fn waits_by_rights()
    ensures { WaitsByRights }
{
    polls_by_rights();
    rights_follow();
}

/// The same of a leave: it ends with nothing held.
pub fn leaves_by_rights()
    ensures { LeavesByRights }
{
    rights_follow();
}

/// While a processor runs a sweep its steps are those of the sweep, until that has ended. Only its search for a slot runs
/// one, and begins it where it finds the head of a span with the number before the sweep generation.
pub fn processors_run_sweeps()
    ensures { ProcessorsRunSweeps }
{
    searches_run_sweeps();
    searching_keeps_its_facts();
    sweeps_are_run_on();
}

/// Whatever any number of processors do beside it: an operation begins well where it may begin; each step of the
/// processor but those of a sweep is a move that its rights allow; each is on a word that there is, after which its
/// registers hold what they hold in the heap that never frees, and it answers what that heap answers, or `full` where
/// it found no room, with each span swept; the step that counts an object's bytes changes words alone; and what is known
/// of it lasts, also behind each step of a sweep. Where it is parked at a stop, or is gone, it has no right, and what is
/// known of it lasts whatever is done to the words.
pub fn a_processor_runs_by_its_rights()
    ensures { RunsByItsRights }
{
    packed_words_are_read_back();
    rows_are_written();
    size_class_laws();
    what_is_wanted_fits();
    the_heap_is_apart();
    rights_follow();
    gh_heap::laws::facts_last();
    searching_keeps_its_facts();
    making_keeps_its_facts();
    writes_by_moves();
    writing_is_within();
    assists_are_quiet();
    assists_are_within();
    polls_by_rights();
    waits_by_rights();
    leaves_by_rights();
}
