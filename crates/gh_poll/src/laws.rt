//! Laws of polls, waits and leaves. The functions do nothing; what they ensure is proved.

ghost use Rattle.gh_base.specs.declared.layout.Layout.{Layout};
ghost use Rattle.gh_base.specs.Machines.{IsRoutine};
ghost use Rattle.gh_poll.specs.Give as gives;
ghost use Rattle.gh_poll.specs.Leave as leaves;
ghost use Rattle.gh_poll.specs.MarkStack as marks;
ghost use Rattle.gh_poll.specs.Poll as polls;
ghost use Rattle.gh_poll.specs.Wait as waits;
ghost use Rattle.gh_poll.specs.Handshake.{LeavesInHandshake, PollsInHandshake, WaitsInHandshake};
ghost use Rattle.gh_poll.specs.MarkFacts.{LeavesByMoves, PollsByMoves, WaitsByMoves};
ghost use Rattle.gh_poll.specs.Quiet.{WhatPollsRunIsQuiet};
ghost use Rattle.gh_poll.specs.Turns.{PollsScanInTurn};

use gh_base::laws::footprints_hold;
use gh_class::size_class_laws;
use gh_marks::laws::{facts_last, hands_follow, own_moves_leave, steps_go_by_moves};
use gh_phase::laws::{going_on_is_a_routine, going_on_keeps_the_handshake};
use gh_scan::laws::marking_is_quiet;
use gh_shade::laws::{shades_by_moves, shading_is_a_routine};
use gh_stack::laws::stacks_are_scanned_by_moves;
use gh_wbuf::laws::{buffers_pass_by_moves, giving_back_is_a_routine, room_search_is_a_routine};

/// The giving back is a routine: it stays sound, each step is on a word that there is, and it writes the lock, head words of
/// spans and words of buffers alone.
pub fn giving_is_a_routine()
    ensures { (l : Layout) → IsRoutine l (gives.listing l) }
{
    size_class_laws();
    giving_back_is_a_routine();
}

/// So is leaving, which writes its acknowledgement too.
pub fn leaving_is_a_routine()
    ensures { (l : Layout) → IsRoutine l (leaves.listing l) }
{
    size_class_laws();
    giving_back_is_a_routine();
}

/// So are the scan of a stack, which writes the word of the stack, mark bits, buffers and their entries; a poll, which writes
/// what it runs writes, and its acknowledgement; and a wait with its polls, which writes the wish for a cycle too.
pub fn polls_are_routines()
    ensures scans { (l : Layout) → IsRoutine l (marks.listing l) }
    ensures polls { (l : Layout) → IsRoutine l (polls.listing l) }
    ensures waits { (l : Layout) → IsRoutine l (waits.listing l) }
{
    giving_is_a_routine();
    footprints_hold();
    going_on_is_a_routine();
    room_search_is_a_routine();
    shading_is_a_routine();
}

/// Whatever it is told: a poll that ends while marking is on is counted, and scans one stack where it is the first of its cycle, or
/// the fourth after such a one: that of the lowest goroutine of the processor which has not ended and was not scanned in the
/// cycle. Any other poll scans none.
pub fn polls_scan_in_turn()
    ensures { PollsScanInTurn }
{}

/// Neither the giving back that a poll and a leave run, nor the scan of a stack in a poll, writes a word of the handshake of a
/// stop.
pub fn what_polls_run_is_quiet()
    ensures { WhatPollsRunIsQuiet }
{
    marking_is_quiet();
}

/// Each step of a poll is one of the handshake of a stop. It begins awake; where it finds a stop it gives back what
/// is held, acknowledges with no span cached and no buffer held, and goes on; then it is awake again until it
/// ends.
pub fn polls_keep_the_handshake()
    ensures { PollsInHandshake }
{
    what_polls_run_is_quiet();
    marking_is_quiet();
    going_on_keeps_the_handshake();
}

/// Each step of a wait is one of the handshake of a stop: between its polls the processor is awake.
pub fn waits_keep_the_handshake()
    ensures { WaitsInHandshake }
{
    polls_keep_the_handshake();
}

/// Each step of a leave is one of the handshake of a stop: while it gives back what is held the processor is
/// awake, and with its last step it says that it is gone.
pub fn leaves_keep_the_handshake()
    ensures { LeavesInHandshake }
{
    what_polls_run_is_quiet();
}

/// Whatever any number of actors do beside it while marking is on: each step of a poll is made of moves that its
/// seat may make, and what is known at each stage holds then and lasts. What it scans is the stack of a goroutine
/// of its own, and each register of it is clean where it says so. It has in hand what the stage says and nothing
/// else, so where it acknowledges a stop it has nothing.
pub fn polls_by_moves()
    ensures { PollsByMoves }
{
    what_polls_run_is_quiet();
    marking_is_quiet();
    facts_last();
    hands_follow();
    own_moves_leave();
    steps_go_by_moves();
    buffers_pass_by_moves();
    shades_by_moves();
    stacks_are_scanned_by_moves();
}

/// The same of a wait.
pub fn waits_by_moves()
    ensures { WaitsByMoves }
{
    polls_by_moves();
    facts_last();
    hands_follow();
    own_moves_leave();
    steps_go_by_moves();
    buffers_pass_by_moves();
    shades_by_moves();
    stacks_are_scanned_by_moves();
}

/// The same of a leave: where a processor says that it is gone it has nothing in hand.
pub fn leaves_by_moves()
    ensures { LeavesByMoves }
{
    what_polls_run_is_quiet();
    facts_last();
    hands_follow();
    own_moves_leave();
    steps_go_by_moves();
    buffers_pass_by_moves();
    shades_by_moves();
    stacks_are_scanned_by_moves();
}
