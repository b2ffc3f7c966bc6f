//! Laws of the words that a processor writes, and of how many steps it takes. The functions do nothing; what they ensure is proved.

ghost use Rattle.gh_mutator.specs.Ending.{OperationsEnd};
ghost use Rattle.gh_mutator.specs.Faults.{FaultsChangeNothing};
ghost use Rattle.gh_mutator_writes.specs.Calm.{CalmProcessorsMarkNothing};
ghost use Rattle.gh_mutator_writes.specs.Full.{FullChangesLittle};
ghost use Rattle.gh_mutator_writes.specs.Spending.{ProcessorsSpend};
ghost use Rattle.gh_mutator_writes.specs.Writing.{ProcessorWritesItsOwn, StacksAreNoted};

use gh_alloc::laws::an_object_is_marked_before_it_is_made;
use gh_assist::laws::{assists_are_quiet, assists_pay};
use gh_barrier::laws::writing_ends;
use gh_base::laws::cells_are_told;
use gh_mutator::laws::{
    a_processor_marks_by_moves, objects_ask_at_the_trigger, the_processor_keeps_the_handshake,
};

/// Whatever its steps find, an operation that neither makes an object nor waits for others ends after a few of
/// them: a load after at most 4, a store after 3, a load of a global after 2, and each other statement, and the
/// end of a goroutine, after 1. While marking is on, as the processor knows, a store ends after at most 10, and one of a
/// global after 8: there they have a write barrier.
pub fn operations_end()
    ensures { OperationsEnd }
{
    writing_ends();
}

/// A statement that is answered a fault has loaded words alone, and leaves the processor as it was.
pub fn faults_change_nothing()
    ensures { FaultsChangeNothing }
{}

/// A `new` that is answered `full` has waited: a cycle that began after it did was swept. Each step beside those of
/// the wait loaded a word, took or freed the heap's lock, wrote a page word, or was one that a sweep makes: it swapped a
/// page word, cut alloc bits, cleared marks, or added to the counts. It leaves the numbers of objects and all registers
/// as they were, save its own, which is nil; no span is cached of its span class. What else the processor alone knows,
/// the polls of the wait may have changed.
pub fn full_changes_little()
    ensures { FullChangesLittle }
{}

/// Whatever a processor finds, its step is a load, or on a word of the heap's lock, of the pages, slots, pointer bits,
/// names, fields and globals, of the mark bits, the buffers and their entries; or on its own acknowledgement, or on the
/// word of a stack that it has scanned or whose goroutine ends. A scan is told only of a stack of which it has not noted
/// yet the cycle's number, so each is scanned once at the most in a cycle. It asks for a cycle once in a wait, where that begins, and
/// once behind the making of an object: exactly where it has loaded a trigger that the heap's bytes with the object's
/// reach, by what the step that added those found while marking was off. It
/// adds the bytes of a slot where it has made an object, and while it sweeps a span writes what the sweep counts. No other word
/// is written by it. Its heap and its seat stay.
pub fn a_processor_writes_its_own()
    ensures { ProcessorWritesItsOwn }
{
    cells_are_told();
    objects_ask_at_the_trigger();
    assists_are_quiet();
    assists_pay();
    the_processor_keeps_the_handshake();
}

/// What a processor counts as spent is what it takes out of the bank of credit, by swaps alone. It draws on the bank in an
/// assist, and so while marking is on, as it knows.
pub fn processors_spend()
    ensures { ProcessorsSpend }
{
    a_processor_writes_its_own();
    assists_pay();
}

/// What a processor has noted of a stack is the number that it has written last of it: the cycle of a scan, or that the
/// goroutine has ended; and 0 before.
pub fn stacks_are_noted()
    ensures { StacksAreNoted }
{
    assists_are_quiet();
}

/// A processor that holds no buffer, and does not know that marking is on, writes no buffer, no entry, and no mark bit but
/// those that its sweep clears, and of a stack that its goroutine has ended alone; an object that it makes it has not marked. So it goes on as long as the phases that it finds are not that of
/// marking; and it holds no buffer still where it first finds that one.
pub fn calm_processors_mark_nothing()
    ensures { CalmProcessorsMarkNothing }
{
    cells_are_told();
    an_object_is_marked_before_it_is_made();
    the_processor_keeps_the_handshake();
    a_processor_marks_by_moves();
}
