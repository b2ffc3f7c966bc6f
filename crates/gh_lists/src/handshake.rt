//! Processors, workers and the coordinator in the handshake of a stop, in one list of steps.
//!
//! The law of the handshake (`gh_phase`) is of any actors that say where they stand in it. Here these are any
//! number of processors and of workers, and one coordinator at the seat behind them; their crates say where
//! each stands.

ghost use Rattle.gh_lists.specs.Handshake.{EveryListKeepsIt, EveryStepKeepsIt};

use gh_base::Op;
use gh_base::laws::packed_words_are_read_back;
use gh_coord::Coord;
use gh_coord::laws::the_coordinator_leads_the_handshake;
use gh_mutator::Processor;
use gh_mutator::laws::the_processor_keeps_the_handshake;
use gh_mutator_writes::laws::a_processor_writes_its_own;
use gh_phase::InHandshake;
use gh_phase::laws::{nobody_moves, the_gone_stay_gone, the_handshake_holds, the_last_phase_stays};
use gh_worker::Worker;
use gh_worker::laws::{a_worker_keeps_the_handshake, workers_keep_places};

/// An actor of a heap with a collector. No value of it is made: it is what clauses on lists of their steps
/// speak of.
pub enum Actor<'a> {
    /// A processor.
    Runs(Processor<'a>),
    /// A worker.
    Marks(Worker),
    /// The coordinator.
    Leads(Coord),
}

impl InHandshake for Actor<'_> {
    ghost use Rattle.gh_lists.specs.Handshake.{place_of, Sound};

    ghost sound = { Sound };

    ghost place = { place_of };
}

/// Whatever the numbers of processors and workers, and whatever the order of steps, every legal list keeps the
/// handshake. What a processor or a worker knows of the phase, from the opening or the end of going on after a stop
/// until it is to acknowledge the next one, is the last phase that was no stop, and the sweep generation and the cycles
/// begun as their words stand; a worker may know still that marking is off once the last cycle is swept. In a stopped world each processor waits at the stop, or is gone, and each worker waits
/// at it with no buffer held. No worker leaves before the last cycle is swept, and every processor has by then.
pub fn every_list_keeps_the_handshake()
    ensures { EveryListKeepsIt }
{
    packed_words_are_read_back();
    the_handshake_holds::<Actor<'_>, Op>();
    the_gone_stay_gone::<Actor<'_>, Op>();
    the_last_phase_stays::<Actor<'_>, Op>();
    the_coordinator_leads_the_handshake();
    a_worker_keeps_the_handshake();
    workers_keep_places();
    the_processor_keeps_the_handshake();
    a_processor_writes_its_own();
}

/// Who is gone stays gone, and no phase follows the last. In a stopped world nobody but the coordinator moves: a
/// step of any other actor is a load of the phase that finds the stop, and leaves it where it was. So what the
/// coordinator finds there, with many loads, is so at one moment.
pub fn every_step_keeps_the_handshake()
    ensures { EveryStepKeepsIt }
{
    the_gone_stay_gone::<Actor<'_>, Op>();
    the_last_phase_stays::<Actor<'_>, Op>();
    nobody_moves::<Actor<'_>, Op>();
    the_coordinator_leads_the_handshake();
    a_worker_keeps_the_handshake();
    the_processor_keeps_the_handshake();
    a_processor_writes_its_own();
}
