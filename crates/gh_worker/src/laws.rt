//! The laws of a worker. The functions do nothing; what they ensure is proved of every worker, whatever
//! words it is told.

ghost use Rattle.gh_worker.specs.Earning.{WorkersEarn};
ghost use Rattle.gh_worker.specs.Globals.{WorkersCountGlobals};
ghost use Rattle.gh_worker.specs.Handshake.{WorkersKeepHandshake};
ghost use Rattle.gh_worker.specs.MarkFacts.{WorksByMoves};
ghost use Rattle.gh_worker.specs.Places.{WorkersKeepPlaces};
ghost use Rattle.gh_worker.specs.Routine.{WorkersAreRoutines, WorkersStayWithin};
ghost use Rattle.gh_worker.specs.Sweeping.{WorkersRunSweeps};
ghost use Rattle.gh_worker.specs.Works.{WordsAreCounted};
ghost use Rattle.gh_worker.specs.Writing.{CalmWorkersMarkNothing, WorkersWriteTheirOwn};

use gh_assist::laws::taking_and_scanning_are_within;
use gh_base::laws::{footprints_hold, packed_words_are_read_back};
use gh_credit::laws::earning_is_a_routine;
use gh_marks::laws::{facts_last, hands_follow, steps_go_by_moves, the_cursor_is_small};
use gh_phase::laws::{going_on_is_a_routine, going_on_keeps_the_handshake};
use gh_scan::laws::{marking_is_quiet, scan_is_a_routine, scans_by_moves};
use gh_shade::laws::{shades_by_moves, shading_is_a_routine};
use gh_sweep::laws::the_sweep_is_a_routine;
use gh_wbuf::laws::{
    buffers_pass_by_moves, entry_taking_is_a_routine, giving_back_is_a_routine,
    room_search_is_a_routine,
};

/// A worker is a routine: it stays sound, each step is on a word that there is, and it writes the rows of marking, its
/// acknowledgement and what its sweeps write, and while it sweeps no span none of the last.
pub fn workers_are_routines()
    ensures { WorkersAreRoutines }
{
    footprints_hold();
    packed_words_are_read_back();
    earning_is_a_routine();
    giving_back_is_a_routine();
    going_on_is_a_routine();
    entry_taking_is_a_routine();
    scan_is_a_routine();
    shading_is_a_routine();
    room_search_is_a_routine();
    the_sweep_is_a_routine();
}

/// Each step of a worker is on a word that there is, whatever it finds: be that no word of 64 bits, as in a list of steps that no
/// run has.
pub fn workers_stay_within()
    ensures { WorkersStayWithin }
{
    taking_and_scanning_are_within();
}

/// A worker's count is that of the words which it has scanned: those of each object whose scan has ended,
/// and one for each global that is done.
pub fn words_are_counted()
    ensures { WordsAreCounted }
{}

/// With each step a worker has a global in hand more where it has moved the cursor past one, and one less where it is done with
/// one. What it counts are the words of objects and one for each such global, and at rest nothing.
pub fn workers_count_globals()
    ensures { WorkersCountGlobals }
{
    footprints_hold();
    packed_words_are_read_back();
    earning_is_a_routine();
    giving_back_is_a_routine();
    going_on_is_a_routine();
    entry_taking_is_a_routine();
    scan_is_a_routine();
    shading_is_a_routine();
    room_search_is_a_routine();
    the_sweep_is_a_routine();
}

/// Each word that a worker has scanned it hands over to the bank of credit once, or has still to hand over: what its
/// steps add to the bank is what it counts as handed over. It writes the bank by such additions alone.
pub fn credit_is_handed_over()
    ensures { WorkersEarn }
{}

/// Each step of a worker is one of the handshake of a stop: while it takes, scans and shades it is awake and
/// writes no word of that; from a stop it hands over what it has scanned, gives its buffer back, acknowledges, and goes
/// on with no buffer held and nothing left to hand over.
pub fn a_worker_keeps_the_handshake()
    ensures { WorkersKeepHandshake }
{
    going_on_keeps_the_handshake();
    marking_is_quiet();
}

/// While it marks, looks for spans or sweeps one it is awake, and what it knows of the phase is its own. It marks only
/// where it has found that marking is on, and looks for spans and sweeps them only where it has found that it is off. While it
/// goes on after a stop it holds nothing.
pub fn workers_keep_places()
    ensures { WorkersKeepPlaces }
{}

/// Whatever any number of actors do beside it while marking is on: each step of a worker that sweeps no span is made of
/// moves that its seat may make, and what is known at each stage holds then and lasts. It has in hand what the stage says
/// and nothing else, so where it acknowledges a stop it has nothing.
pub fn works_by_moves()
    ensures { WorksByMoves }
{
    facts_last();
    hands_follow();
    steps_go_by_moves();
    the_cursor_is_small();
    buffers_pass_by_moves();
    shades_by_moves();
    scans_by_moves();
}

/// A worker that sweeps a span makes the steps of that sweep until it has ended, and no others. It begins one only
/// where it finds the head of a span with the number before the sweep generation, and it looks for such a head only
/// behind a load of the phase that found marking off.
pub fn workers_run_sweeps()
    ensures { WorkersRunSweeps }
{}

/// While it sweeps no span a worker writes no word but those of buffers, entries and marks, the cursor by one global,
/// the bank of credit by an addition, and its own acknowledgement.
pub fn a_worker_writes_its_own()
    ensures { WorkersWriteTheirOwn }
{}

/// A worker that holds no buffer, has nothing to hand over and marks nothing stays so until it finds that marking is on. While it sweeps no span
/// it writes its acknowledgement alone then. It is so before its first step, and while it goes on after a stop.
pub fn calm_workers_mark_nothing()
    ensures { CalmWorkersMarkNothing }
{}
