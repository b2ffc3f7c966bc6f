//! The numbers of cycles, over every list of steps of processors, workers and a coordinator.
//!
//! The coordinator alone writes the words of the cycles; processors only ask for one. So what it knows of them is
//! so, and what it stores is what the next actor finds. Its numbers begin anew where their words end, and no list
//! gets so far: a cycle is opened where one was asked for, or is the last; the request is cleared with the opening,
//! in one store; and only a `new` and a `gc` ask for one: a `gc` once, a `new` twice at the most. So there are at most
//! twice as many cycles as such statements, and one.
//!
//! A request that was cleared behind the begin of a cycle could be lost: the statement that asked meanwhile would
//! wait for ever. It is cleared before, in a stopped world; who asks later asks for the next cycle.

ghost use Rattle.gh_lists.specs.Lists.{EveryListOpensFew};
ghost use Rattle.gh_lists.specs.Changes.{EveryListHasItsNumbers, EveryStepChangesNumbers, NoNumberFalls};
ghost use Rattle.gh_lists.specs.Counts.{EveryListCountsPlainly};
ghost use Rattle.gh_lists.specs.Numbers.{EveryListCountsCycles};
ghost use Rattle.gh_lists.specs.Waits.{EveryListNumbersStacks, EveryListRestsWorkers, EveryStepNumbersStacks};
ghost use Rattle.gh_lists.specs.Wants.{CyclesAreFew, EveryListCountsWants, ProcessorsBeginFew};

use crate::handshake::every_list_keeps_the_handshake;
use gh_mutator::laws::the_processor_keeps_the_handshake;
use gh_mutator_writes::laws::a_processor_writes_its_own;
use gh_worker::laws::{a_worker_writes_its_own, calm_workers_mark_nothing};

/// The numbers of the words and of the coordinator, by the part of the cycle that the coordinator is in; and the
/// coordinator keeps the cycles in their order, and leaves none out as long as there is room. What sweeps count is
/// none of these numbers: each actor that sweeps adds to it.
pub fn every_list_counts_cycles()
    ensures { EveryListCountsCycles }
{
    every_list_keeps_the_handshake();
    a_processor_writes_its_own();
    a_worker_writes_its_own();
}

/// Each step leaves the three numbers of cycles, or it is the coordinator's that begins a cycle, ends its marking or tells that
/// it is swept, and one of them is one cycle later; so none is ever less. And they are those of the part of the cycle that the
/// coordinator is in.
pub fn every_step_changes_numbers()
    ensures changes { EveryStepChangesNumbers }
    ensures rises { NoNumberFalls }
    ensures numbers { EveryListHasItsNumbers }
{
    every_list_keeps_the_handshake();
    a_processor_writes_its_own();
    a_worker_writes_its_own();
}

/// Said by how often the list stores each word: the number of cycles begun, and that of those swept, are how often they
/// were stored; the sweep generation is 2 and 2 for each time. Each cycle is opened, begun, ended and swept in turn, one
/// at once; and none is left out of the coordinator's list.
pub fn every_list_counts_plainly()
    ensures { EveryListCountsPlainly }
{
    every_list_keeps_the_handshake();
    every_list_counts_cycles();
    a_processor_writes_its_own();
    a_worker_writes_its_own();
}

/// At most one request stands, and no more cycles are opened than were asked for, but the last.
pub fn every_list_counts_wants()
    ensures { EveryListCountsWants }
{
    every_list_keeps_the_handshake();
    a_processor_writes_its_own();
    a_worker_writes_its_own();
}

/// An operation asks for two cycles at the most: a `new` where its first search found nothing, and where it saw the
/// trigger reached. So where no goroutine begins more that may ask than it has, there are no more cycles than twice as
/// many, but the last: far fewer than their numbers go.
pub fn cycles_are_few()
    ensures { CyclesAreFew }
{
    every_list_keeps_the_handshake();
    every_list_counts_wants();
    a_processor_writes_its_own();
    a_worker_writes_its_own();
}

/// No goroutine begins more statements than it has.
pub fn processors_begin_few()
    ensures { ProcessorsBeginFew }
{}

/// So there are no more cycles in any list than twice as many as goroutines may begin `new` and `gc`, and the last.
pub fn every_list_opens_few()
    ensures { EveryListOpensFew }
{
    cycles_are_few();
    processors_begin_few();
}

/// Each stack's word is the number of a cycle that has begun, until its goroutine ends. A step leaves it, or writes the number of
/// an end or that of the cycle that has begun last.
pub fn every_list_numbers_stacks()
    ensures lists { EveryListNumbersStacks }
    ensures steps { EveryStepNumbersStacks }
{
    every_list_keeps_the_handshake();
    every_list_counts_cycles();
    the_processor_keeps_the_handshake();
    a_processor_writes_its_own();
    a_worker_writes_its_own();
}

/// While no cycle is marked, each worker holds no buffer and marks nothing.
pub fn every_list_rests_workers()
    ensures { EveryListRestsWorkers }
{
    every_list_keeps_the_handshake();
    a_processor_writes_its_own();
    calm_workers_mark_nothing();
}
