//! Laws of the machine. The functions do nothing; what they ensure is proved.

ghost use Rattle.gh_mutator.specs.Acting.{EachOperationActsOnce};
ghost use Rattle.gh_mutator.specs.Asking.{ProcessorsAskAtTheTrigger};
ghost use Rattle.gh_mutator.specs.Deeds.{OnlyPointsChange, ProcessorsDeedsFit};
ghost use Rattle.gh_mutator.specs.PollRoom.{PollsMakeRoom};
ghost use Rattle.gh_mutator.specs.ProcessorMarks.{MarksByMoves};
ghost use Rattle.gh_mutator.specs.ProcessorPlaces.{ProcessorInHandshake};
ghost use Rattle.gh_mutator.specs.Quiet.{ProcessorIsQuiet};
ghost use Rattle.gh_mutator.specs.Spending.{DebtsAreDropped};
ghost use Rattle.gh_mutator.specs.Sweeping.{SweepsAreRunOn};
ghost use Rattle.gh_mutator.specs.Wanting.{WhatIsWantedFits};

use gh_alloc::laws::{allocation_is_quiet, an_object_asks_at_the_trigger, searches_run_sweeps};
use gh_assist::laws::{assists_are_quiet, assists_by_moves};
use gh_barrier::laws::writes_by_moves;
use gh_class::size_class_laws;
use gh_marks::laws::{facts_last, hands_follow, own_moves_leave, steps_go_by_moves};
use gh_poll::laws::{
    leaves_by_moves, leaves_keep_the_handshake, polls_by_moves, polls_keep_the_handshake,
    waits_by_moves, waits_keep_the_handshake, what_polls_run_is_quiet,
};
use gh_scan::laws::marking_is_quiet;
use gh_shade::laws::shades_by_moves;
use gh_stack::laws::stacks_are_scanned_by_moves;
use gh_wbuf::laws::buffers_pass_by_moves;

/// An operation that is begun acts once, before it ends, whatever its steps find: also one that has no point.
pub fn each_operation_acts_once()
    ensures { EachOperationActsOnce }
{}

/// An operation that has a point acts once, before it ends, whatever its steps find: statements and the ends of
/// goroutines have one, a poll and a leave none.
pub fn the_processors_deeds_fit()
    ensures { ProcessorsDeedsFit }
{}

/// A poll and a leave leave the heap that never frees as it is: after a list it is what all acts leave.
pub fn only_points_change()
    ensures { OnlyPointsChange }
{}

/// Whatever it is told, a poll that is no part of a wait ends where marking is off, as the processor knows, or two
/// entries go into the buffer that is held. So a processor that has polled may begin a store, or any other operation,
/// until it has begun another one. A poll of a wait takes no buffer for that.
pub fn polls_make_room()
    ensures { PollsMakeRoom }
{}

/// Save for its poll and its leave among a collector, nothing that a processor runs writes a word of the
/// handshake of a stop: no statement, no giving back, and no scan of a stack.
pub fn the_processor_is_quiet()
    ensures { ProcessorIsQuiet }
{
    what_polls_run_is_quiet();
    marking_is_quiet();
    allocation_is_quiet();
    assists_are_quiet();
}

/// Each step of a processor is one of the handshake of a stop, whatever it runs: it is awake, but where its poll, or
/// the poll of a wait, gives back what is held and goes on after a stop, and where it leaves. It acknowledges a stop,
/// and says that it is gone, for its own seat, with no span cached and no buffer held.
pub fn the_processor_keeps_the_handshake()
    ensures { ProcessorInHandshake }
{
    the_processor_is_quiet();
    marking_is_quiet();
    polls_keep_the_handshake();
    waits_keep_the_handshake();
    leaves_keep_the_handshake();
}

/// While a cycle is marked, each step of a processor that polls, waits for a cycle or leaves is made of moves that its
/// seat may make, and what is known of it by its task holds then and lasts, whatever all others do. It begins where
/// the cycle does, from a processor that stands still with nothing in hand; and so it stands where the cycle ends.
pub fn a_processor_marks_by_moves()
    ensures { MarksByMoves }
{
    polls_by_moves();
    waits_by_moves();
    leaves_by_moves();
    writes_by_moves();
    assists_by_moves();
    facts_last();
    hands_follow();
    own_moves_leave();
    steps_go_by_moves();
    buffers_pass_by_moves();
    shades_by_moves();
    stacks_are_scanned_by_moves();
}

/// What a processor owes is dropped behind a stop where marking is off, or another cycle is marked: who does not know of
/// marking owes nothing. Behind a step of an assist it owes what that says, and behind any other as much as before, or
/// nothing.
pub fn debts_are_dropped()
    ensures { DebtsAreDropped }
{}

/// The making of an object asks for a cycle once behind it: exactly where it has loaded a trigger that the heap's bytes with
/// the object's reach, by what the step that added those found while marking was off.
pub fn objects_ask_at_the_trigger()
    ensures { ProcessorsAskAtTheTrigger }
{
    an_object_asks_at_the_trigger();
}

/// While a processor runs a sweep its steps are those of the sweep, until that has ended. A step of its search for a slot
/// leads to the sweep that the search runs then, and any other step to none; no operation begins with one.
pub fn sweeps_are_run_on()
    ensures { SweepsAreRunOn }
{
    searches_run_sweeps();
}

/// What a `new` of a type wants fits: the slot of its size class, or pages of its own.
pub fn what_is_wanted_fits()
    ensures { WhatIsWantedFits }
{
    size_class_laws();
}
