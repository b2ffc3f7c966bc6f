//! What holds of the moves. The functions do nothing; what they ensure is proved.

ghost use Rattle.gh_state.specs.Cycles.{CountsAreTold, CyclesEnd, CyclesOpen, HeapsOpen, TheSweepIsTold};
ghost use Rattle.gh_state.specs.Laws.{EachMoveKeeps, EachMoveLeaves};
ghost use Rattle.gh_state.specs.Walkers.{WalkersPass};
ghost use Rattle.gh_state.specs.Routines.{SweepsByTheState, SweepsLeave};
ghost use Rattle.gh_state.specs.Slots.{SlotsAreRead};

use gh_base::laws::{packed_words_are_read_back, rows_are_written};
use gh_class::size_class_laws;
use gh_heap::laws::{no_more_is_reached, rights_follow, sweeps_go_beside, the_heap_is_apart};
use gh_sweep::laws::{bits_are_objects, cycles_end_well, sweeps_among_others, whole_spans_fit};

/// What holds at every moment holds after each move that may be made.
pub fn each_move_keeps()
    ensures { EachMoveKeeps }
{
    packed_words_are_read_back();
    rows_are_written();
    size_class_laws();
    the_heap_is_apart();
    no_more_is_reached();
    whole_spans_fit();
    gh_heap::laws::each_move_keeps();
    sweeps_go_beside();
    gh_sweep::laws::each_move_keeps();
}

/// What another seat's move leaves to a seat, of the heap and of the sweep.
pub fn each_move_leaves()
    ensures { EachMoveLeaves }
{
    packed_words_are_read_back();
    rows_are_written();
    size_class_laws();
    the_heap_is_apart();
    no_more_is_reached();
    whole_spans_fit();
    gh_heap::laws::each_move_keeps();
    sweeps_go_beside();
    gh_sweep::laws::each_move_keeps();
    gh_heap::laws::each_move_leaves();
    gh_sweep::laws::each_move_leaves();
}

/// A sweep of a span by any seat, among all others, is made of moves of the one state.
pub fn routines_are_made_of_moves()
    ensures { SweepsByTheState }
{
    sweeps_among_others();
    sweeps_leave();
}

/// Where all spans are swept the next cycle may open: no mark is set, and the counts of the last sweep are exact. Where
/// it ends, the world being stopped and what a script reaches being marked, the same holds of the state as before, each
/// span being unswept. So it does where a heap opens.
pub fn cycles_open_and_end()
    ensures opens { CyclesOpen }
    ensures told { TheSweepIsTold }
    ensures ends { CyclesEnd }
    ensures heaps { HeapsOpen }
{
    rows_are_written();
    cycles_end_well();
}

/// The steps of a sweep leave to its own seat the rights that it has, the objects, and what a walk under the lock has
/// seen.
pub fn sweeps_leave()
    ensures { SweepsLeave }
{
    packed_words_are_read_back();
    rows_are_written();
    size_class_laws();
    the_heap_is_apart();
    no_more_is_reached();
    whole_spans_fit();
    gh_heap::laws::each_move_keeps();
    sweeps_go_beside();
    gh_sweep::laws::each_move_keeps();
    rights_follow();
}

/// What a walk over all pages without the lock has passed stays swept, whoever swept it and whoever moves, and where all
/// are passed each span is.
pub fn walkers_pass()
    ensures { WalkersPass }
{
    gh_sweep::laws::each_move_leaves();
}

/// Page words alone tell the bytes of a slot of each span.
pub fn slots_are_read()
    ensures { SlotsAreRead }
{}

/// What the counts tell once all is swept, where nothing was laid out and nothing made since the cycle ended: the
/// objects that were marked there and those that were not, and the bytes of the slots that are taken.
pub fn counts_are_told()
    ensures { CountsAreTold }
{
    rows_are_written();
    slots_are_read();
    cycles_open_and_end();
    bits_are_objects();
}
