//! A whole run, told in a line for each thing that happens, from which `goheap.sh watch` makes its page and `goheap.sh cycles` its lines.
//! docs/TRACE.md has the lines one by one.

ghost use Rattle.std.specs.Prelude.{◌≡◌, ◌<◌, false};
ghost use Rattle.gh_world.specs.World.{actors_of, is_done};

use crate::arena::name;
use crate::now::Now;
use crate::order::Order;
use crate::seen::Seen;
use crate::shades::word;
use crate::stands::Stands;
use crate::stop::Stop;
use crate::turns::answered;
use gh_base::{Answer, Cell};
use gh_io::{Sink, write_all};
use gh_replay::Schedule;
use gh_script::Script;
use gh_world::{Event, World};
use std::alloc::{AllocError, Global};

/// Runs the script, and tells each thing that happens. If the budget's turns are taken before the end it tells how each actor stands.
pub fn tell_trace<K: Sink>(
    alloc: Global,
    script: &Script,
    schedule: Schedule,
    budget: u64,
    out: &mut K,
) -> Result<(), Stop> {
    let mut world = World::new(alloc, script)?;
    let mut order = Order::new(schedule);
    let mut seen = Seen::new(alloc, &world)?;
    let mut stands = Stands::new();
    tell_head(alloc, script, out)?;
    for turn in 0..budget {
        let actor = match order.next(&world) {
            Some(actor) => actor,
            None => return tell_end(alloc, &world, turn, out),
        };
        let step = make_step(script, &mut world, actor);
        stands.note(actor, step.event);
        let now = Now {
            alloc,
            script,
            world: &world,
            turn: turn.saturating_add(1),
            actor,
        };
        seen.look(&now, step.point.is_some(), out)?;
        tell_step(&now, step, out)?;
    }
    stands.tell(alloc, script, &world, budget, out)?;
    Err(Stop::OutOfTurns)
}

/// Runs the script and tells nothing but how each actor stands once the budget's turns are taken, if the run is not over by then.
pub fn tell_waits<K: Sink>(
    alloc: Global,
    script: &Script,
    schedule: Schedule,
    budget: u64,
    out: &mut K,
) -> Result<(), Stop> {
    let mut world = World::new(alloc, script)?;
    let mut order = Order::new(schedule);
    let mut stands = Stands::new();
    for _ in 0..budget {
        let actor = match order.next(&world) {
            Some(actor) => actor,
            None => return Ok(()),
        };
        let event = world.step(actor);
        stands.note(actor, event);
    }
    stands.tell(alloc, script, &world, budget, out)?;
    Err(Stop::OutOfTurns)
}

/// What is told of a step beside the words that it has changed: the words that a worker has scanned, the statement that has its point
/// there, and what the step says.
#[derive(Clone, Copy)]
struct Step {
    scanned: u64,
    point: Option<(u32, u32)>,
    event: Event,
}

/// One step of the actor.
fn make_step(script: &Script, world: &mut World<'_>, actor: u8) -> Step
    requires actor { actor < actors_of world.old }
    requires going { is_done world.old actor ≡ false }
{
    let points = world.points().len();
    let marks = world.marks(actor);
    let event = world.step(actor);
    let scanned = if is_worker(script, actor) {
        world.marks(actor).saturating_sub(marks)
    } else {
        0
    };
    Step {
        scanned,
        point: world.points().get(points).copied(),
        event,
    }
}

/// The actor is a worker.
fn is_worker(script: &Script, actor: u8) -> bool {
    let settings = script.settings();
    let actor = u32::from(actor);
    actor >= settings.procs && actor.saturating_sub(settings.procs) < settings.workers
}

/// Writes the lines of a step.
fn tell_step<K: Sink>(now: &Now<'_, '_>, step: Step, out: &mut K) -> Result<(), Stop> {
    if step.scanned > 0 {
        now.tell(now.numbered("scans", step.scanned), out)?;
    }
    if let Some((g, n)) = step.point {
        now.tell(of_point(now, g, n), out)?;
    }
    match step.event {
        Event::Moved => Ok(()),
        Event::Finished => now.tell(format!(in now.alloc; "done"), out),
        Event::Swept { k, marked, freed } => now.tell(of_swept(now, k, marked, freed), out),
        Event::Answered { g, n, answer } => now.tell(of_answer(now, g, n, answer), out),
    }
}

/// A statement acts.
fn of_point(now: &Now<'_, '_>, g: u32, n: u32) -> Result<String, AllocError> {
    let of = name(now.script, g);
    format!(in now.alloc; "acts {of} {n}")
}

fn of_answer(now: &Now<'_, '_>, g: u32, n: u32, answer: Answer) -> Result<String, AllocError> {
    let told = answered(now.alloc, now.script, answer)?;
    let of = name(now.script, g);
    format!(in now.alloc; "answers {of} {n} {told}")
}

fn of_swept(now: &Now<'_, '_>, k: u64, marked: u64, freed: u64) -> Result<String, AllocError> {
    let live = word(now.world, Cell::Live);
    format!(in now.alloc; "swept {k} marked {marked} freed {freed} live {live}")
}

/// Writes the first lines: which format it is, and the settings.
fn tell_head<K: Sink>(alloc: Global, script: &Script, out: &mut K) -> Result<(), Stop> {
    let actors = of_actors(alloc, script)?;
    write_all(out, actors.as_bytes())?;
    let pacing = of_pacing(alloc, script)?;
    write_all(out, pacing.as_bytes())?;
    Ok(())
}

fn of_actors(alloc: Global, script: &Script) -> Result<String, AllocError> {
    let settings = script.settings();
    let (procs, workers, arena) = (settings.procs, settings.workers, settings.arena);
    format!(in alloc; "trace 1\nsettings procs {procs} workers {workers} arena {arena}")
}

fn of_pacing(alloc: Global, script: &Script) -> Result<String, AllocError> {
    let settings = script.settings();
    let (globals, gogc, minheap) = (settings.globals, settings.gogc, settings.minheap);
    let goroutines = script.goroutines();
    format!(in alloc; " globals {globals} gogc {gogc} minheap {minheap} goroutines {goroutines}\n")
}

/// Writes the last lines of a run that is over.
fn tell_end<K: Sink>(
    alloc: Global,
    world: &World<'_>,
    turns: u64,
    out: &mut K,
) -> Result<(), Stop> {
    let line = format!(in alloc; "turns {turns}\n")?;
    write_all(out, line.as_bytes())?;
    let totals = of_totals(alloc, world)?;
    write_all(out, totals.as_bytes())?;
    Ok(())
}

fn of_totals(alloc: Global, world: &World<'_>) -> Result<String, AllocError> {
    if !world.done() {
        return Ok(String::new(alloc));
    }
    let totals = world.totals();
    let (earned, spent, lapsed) = (totals.earned, totals.spent, totals.lapsed);
    let (objects, live) = (totals.objects, totals.live);
    format!(in alloc;
        "credit earned {earned} spent {spent} lapsed {lapsed}\nlive {objects} bytes {live}\n"
    )
}
