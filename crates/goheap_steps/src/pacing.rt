//! What paces the cycles of a run, told in a line for each turn by which it changes: the bytes of the heap, those of the trigger,
//! and the phase of the collector. The goal stands in no word: it follows from what a cycle left live (`gh_pacer`).

use crate::order::Order;
use crate::shades::word;
use crate::stop::Stop;
use crate::turns::{MOST_TURNS, end};
use gh_base::{Cell, Phase, PhaseWord};
use gh_io::{Sink, write_all};
use gh_pacer::NEVER;
use gh_replay::Schedule;
use gh_script::Script;
use gh_world::World;
use std::alloc::Global;

/// What paces cycles, as the words say it.
#[derive(Clone, Copy, PartialEq, Eq)]
struct Pace {
    // Bytes.
    heap: u64,
    // Bytes, or `NEVER`.
    trigger: u64,
    phase: Phase,
}

impl Pace {
    /// What the words say now.
    fn of(world: &World<'_>) -> Pace {
        Pace {
            heap: word(world, Cell::Heap),
            trigger: word(world, Cell::Trigger),
            phase: PhaseWord::unpack(word(world, Cell::Phase)).phase,
        }
    }
}

/// Runs the script, and writes a line for each turn behind which one of these is another than before, and one for how many turns there were.
pub fn tell_pacing<K: Sink>(
    alloc: Global,
    script: &Script,
    schedule: Schedule,
    out: &mut K,
) -> Result<(), Stop> {
    let mut world = World::new(alloc, script)?;
    let mut order = Order::new(schedule);
    let mut told = Pace::of(&world);
    for turn in 0..MOST_TURNS {
        let actor = match order.next(&world) {
            Some(actor) => actor,
            None => return end(alloc, turn, out),
        };
        let _ = world.step(actor);
        let pace = Pace::of(&world);
        if pace != told {
            tell(alloc, turn + 1, pace, out)?;
            told = pace;
        }
    }
    Err(Stop::OutOfTurns)
}

/// Writes the line of a turn.
fn tell<K: Sink>(alloc: Global, turn: u32, pace: Pace, out: &mut K) -> Result<(), Stop> {
    let phase = match pace.phase {
        Phase::Off => "off",
        Phase::Mark => "mark",
        Phase::Stop => "stop",
        Phase::Finished => "finished",
    };
    let trigger = match pace.trigger {
        NEVER => format!(in alloc; "never")?,
        bytes => format!(in alloc; "{bytes}")?,
    };
    let line = format!(in alloc;
        "{turn} heap {} trigger {trigger} phase {phase}\n",
        pace.heap
    )?;
    write_all(out, line.as_bytes())?;
    Ok(())
}
