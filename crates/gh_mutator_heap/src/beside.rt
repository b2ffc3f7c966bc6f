//! A processor that goes on while a cycle is marked: it loads, stores, makes objects and gives spans back beside the
//! workers. The function does nothing; what it ensures is proved.
//!
//! Three rules of Go's collector meet here. What a register takes is what its goroutine can see: so a stack that was
//! scanned needs no barrier, as `gh_tri` shows. A pointer is written behind the write barrier, with what it overwrites
//! and what it writes shaded before (`gh_barrier`). And an object is marked before it is made (`gh_alloc`). All else
//! that a processor does is on words that marking does not read.

ghost use Rattle.gh_mutator_heap.specs.Beside.{GoesOnBesideMarking};

use gh_assist::laws::assists_by_moves;
use gh_barrier::laws::writes_by_moves;
use gh_base::laws::rows_are_written;
use gh_cycle::beside::{
    claimed_fields_are_aside, deeds_go_beside, marking_alone_goes_beside, objects_are_known_beside,
    slots_are_reserved,
};
use gh_marks::laws::{hands_follow, own_moves_leave};
use gh_mutator::laws::a_processor_marks_by_moves;
use gh_mutator_writes::laws::{a_processor_writes_its_own, stacks_are_noted};

/// Whatever any number of actors do beside it while a cycle is marked: each step of a processor, whatever it runs, is
/// made of moves of marking that its seat may make, and what the heap and marking are to each other, and what is known
/// of the processor by its task, holds behind it. Any operation may begin; a store begins where two entries go into
/// the buffer that is held.
pub fn a_processor_goes_on_beside_marking()
    ensures { GoesOnBesideMarking }
{
    rows_are_written();
    hands_follow();
    own_moves_leave();
    writes_by_moves();
    assists_by_moves();
    objects_are_known_beside();
    claimed_fields_are_aside();
    slots_are_reserved();
    deeds_go_beside();
    marking_alone_goes_beside();
    a_processor_writes_its_own();
    stacks_are_noted();
    a_processor_marks_by_moves();
}
