//! What has become of a heap since a cycle began in it. The functions do nothing; what they ensure is proved.
//!
//! Once processors go on beside marking, what a script reaches changes from step to step, and what marking takes for an
//! object of the cycle is no longer that. What can be said is said by the heap that never frees, as it was where the
//! cycle began. A script never reaches again what it had lost by then. And what had been made by then is of the cycle
//! only if a script reached it then: all else of the cycle was made since. So where marking ends, nothing that was lost
//! when the cycle began is marked, and the sweep frees it.

ghost use Rattle.gh_cycle.specs.Since.{CyclesBeginSo, TheMarkedWereReached, WhatHasGoneOnLasts};

use crate::opening::reach_is_decided;
use gh_base::laws::rows_are_written;
use gh_heap::laws::{each_move_keeps, each_move_leaves, no_more_is_reached, the_heap_is_apart};
use gh_marks::laws::steps_go_by_moves;

/// Where a cycle begins, what had been made by then and is of the cycle is what a script reaches.
pub fn cycles_begin_so()
    ensures { CyclesBeginSo }
{
    the_heap_is_apart();
    reach_is_decided();
}

/// That lasts behind each step of whichever actor: of a processor, which is a move over the heap, and of marking alone,
/// which is one that no right guards.
pub fn what_has_gone_on_lasts()
    ensures { WhatHasGoneOnLasts }
{
    rows_are_written();
    the_heap_is_apart();
    each_move_keeps();
    each_move_leaves();
    no_more_is_reached();
    steps_go_by_moves();
}

/// Where marking ends, what stands and is marked was made since the cycle began, or a script reached it then.
pub fn the_marked_were_reached()
    ensures { TheMarkedWereReached }
{}
