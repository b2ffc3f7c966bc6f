//! While a cycle is marked processors go on: they load, store, make objects and give spans back. What the heap and
//! marking are to each other then, and what each move over the heap is to marking. The functions do nothing; what
//! they ensure is proved.
//!
//! With the world stopped, what a script reaches and what marking takes for an object of the cycle are the same.
//! Once processors go on they are not: a script loses what it reached, and makes what marking has never seen. So less
//! is said. What a script reaches is of the cycle; each object of the cycle that stands has the words of its type;
//! and a slot whose mark is set before its object is claimed by the seat that fills it. Each of these lasts under
//! every move over the heap and under every step of marking, and at the end it is enough.

ghost use Rattle.gh_cycle.specs.Beside.{ClaimedFieldsAreAside, CyclesBeginBeside, MarkingAloneGoesBeside, ObjectsAreKnownBeside, SlotsAreReserved, TheMarkedStand, TheReachedAreMarkedBeside};
ghost use Rattle.gh_cycle.specs.Deeds.{DeedsGoBeside};
ghost use Rattle.gh_cycle.specs.Known.{KnownOfMoves};

use crate::opening::reach_is_decided;
use gh_base::laws::rows_are_written;
use gh_class::size_class_laws;
use gh_heap::laws::{facts_last, no_more_is_reached, the_heap_is_apart};

/// Where a cycle begins, the state of marking is one beside which processors may go on.
pub fn cycles_begin_beside()
    ensures { CyclesBeginBeside }
{
    the_heap_is_apart();
    reach_is_decided();
}

/// Page words and pointer bits say what marking relies on of each object of the cycle, those among them that were
/// made since it began.
pub fn objects_are_known_beside()
    ensures { ObjectsAreKnownBeside }
{
    size_class_laws();
    the_heap_is_apart();
}

/// The laws of lower crates on which those of steps beside marking rest: of moves over the heap and of moves of marking.
fn laws_are_known()
    ensures { KnownOfMoves }
{
    rows_are_written();
    the_heap_is_apart();
    reach_is_decided();
    no_more_is_reached();
    gh_heap::laws::each_move_keeps();
    gh_heap::laws::each_move_leaves();
    facts_last();
    gh_marks::laws::each_move_keeps();
    gh_marks::laws::each_move_leaves();
    gh_marks::laws::own_moves_leave();
    gh_marks::laws::steps_go_by_moves();
    gh_marks::laws::hands_follow();
}

/// Each step of a processor over the heap is made of moves of marking that its seat may make, and the two states
/// belong together behind it. It is told by what it does: a routine's law hides by which move it goes, and tells only
/// the words that it writes and how the heap that never frees changes; that is all that marking asks about. It has to
/// meet what `MeetsByDeed` asks: the write barrier, a mark that is set before the object is made, a register's value
/// that comes from what the goroutine can see, and no other step of slots, while it fills one.
pub fn deeds_go_beside()
    ensures { DeedsGoBeside }
{
    laws_are_known();
}

/// The mark of a claimed slot may be set before its object is made: the slot is white, and nobody else fills it.
pub fn slots_are_reserved()
    ensures { SlotsAreReserved }
{
    size_class_laws();
    the_heap_is_apart();
}

/// A claimed slot is cleared beside marking, which reads none of its fields.
pub fn claimed_fields_are_aside()
    ensures { ClaimedFieldsAreAside }
{
    the_heap_is_apart();
}

/// A step of a processor that is made of moves of marking, and leaves the heap that never frees as it is, leaves the
/// two states together: that of a poll, of a wait or of a leave, of a store that shades, and that which marks the slot
/// of an object that is to be made. A routine's law hides by which moves it goes; so this is said of all.
pub fn marking_alone_goes_beside()
    ensures { MarkingAloneGoesBeside }
{
    laws_are_known();
}

/// At the end of marking each object that a script reaches is marked, whatever processors did meanwhile.
pub fn the_reached_are_marked_beside()
    ensures { TheReachedAreMarkedBeside }
{
    reach_is_decided();
}

/// Where marking has ended and nobody fills a slot, what is marked stands.
pub fn the_marked_stand()
    ensures { TheMarkedStand }
{}
