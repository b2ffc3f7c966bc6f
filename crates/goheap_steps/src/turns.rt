//! The turns of a run at which something happens that an item of a list can wait for, those at which the marking of a cycle
//! has ended, and those at which a processor shades an object, each told in a line.

ghost use Rattle.std.specs.Prelude.{◌≡◌, ◌<◌, false};
ghost use Rattle.gh_world.specs.World.{actors_of, is_done};

use crate::arena::{Moment, name, tell_arena};
use crate::order::Order;
use crate::shades::Marks;
use crate::stop::Stop;
use gh_base::{Answer, Cell, Fault, Name};
use gh_io::{Sink, write_all};
use gh_replay::Schedule;
use gh_script::Script;
use gh_world::{Event, World};
use std::alloc::{AllocError, Global};

/// The most turns that are made.
pub const MOST_TURNS: u32 = 10_000_000;

/// Runs the script, and writes a line for each turn at which something happens, and one for how many turns there were. Where a
/// cycle's marking has ended, and where the cycle is swept, the lines of the arena follow.
pub fn tell_turns<K: Sink>(
    alloc: Global,
    script: &Script,
    schedule: Schedule,
    out: &mut K,
) -> Result<(), Stop> {
    let mut world = World::new(alloc, script)?;
    let mut order = Order::new(schedule);
    let mut marks = Marks::new(alloc, world.layout())?;
    let mut steps = [0u32; 256];
    for turn in 0..MOST_TURNS {
        let actor = match order.next(&world) {
            Some(actor) => actor,
            None => return end(alloc, turn, out),
        };
        let at = usize::from(actor);
        steps[at] = steps[at].saturating_add(1);
        let told = told_of(script, &mut world, &mut marks, actor);
        if told.is_something() {
            tell(alloc, script, turn + 1, steps[at], &told, out)?;
        }
        if told.marked.is_some() || told.is_swept() {
            let moment = Moment {
                alloc,
                script,
                world: &world,
                turn: turn + 1,
                is_swept: told.is_swept(),
            };
            tell_arena(&moment, out)?;
        }
    }
    Err(Stop::OutOfTurns)
}

/// What is told of a step: the object that a processor shades by it, the statement that has its point there, what the step says, the
/// cycle whose marking has ended by it, which is where the sweep generation is stored, and the marks of its actor, if they rose.
#[derive(Drop)]
struct Told {
    actor: u8,
    shaded: Option<Name>,
    point: Option<(u32, u32)>,
    event: Event,
    marked: Option<u64>,
    marks: Option<u64>,
}

/// One step of the actor, and what is told of it.
fn told_of(script: &Script, world: &mut World<'_>, seen: &mut Marks, actor: u8) -> Told
    requires actor { actor < actors_of world.old }
    requires going { is_done world.old actor ≡ false }
{
    let is_processor = u32::from(actor) < script.settings().procs;
    if is_processor {
        let _ = seen.look(script, world);
    }
    let points = world.points().len();
    let marks = world.marks(actor);
    let generation = world.word(Cell::Gen);
    let event = world.step(actor);
    let now = world.marks(actor);
    let marked = if world.word(Cell::Gen) != generation {
        Some(world.word(Cell::Begun))
    } else {
        None
    };
    Told {
        actor,
        shaded: if is_processor {
            seen.look(script, world)
        } else {
            None
        },
        point: world.points().get(points).copied(),
        event,
        marked,
        marks: if marks < now { Some(now) } else { None },
    }
}

impl Told {
    fn is_something(&self) -> bool {
        self.shaded.is_some()
            || self.point.is_some()
            || self.marked.is_some()
            || self.marks.is_some()
            || self.event != Event::Moved
    }

    fn is_swept(&self) -> bool {
        matches!(self.event, Event::Swept { .. })
    }
}

/// Writes the line of a turn.
fn tell<K: Sink>(
    alloc: Global,
    script: &Script,
    turn: u32,
    step: u32,
    told: &Told,
    out: &mut K,
) -> Result<(), Stop> {
    let kind = kind_of(script, told.actor);
    let head = format!(in alloc; "{turn} {kind} {} step {step}:", told.actor)?;
    write_all(out, head.as_bytes())?;
    if let Some(shaded) = told.shaded {
        let shades = format!(in alloc; " shades {}.{}", name(script, shaded.g), shaded.k)?;
        write_all(out, shades.as_bytes())?;
    }
    if let Some(point) = told.point {
        let acts = format!(in alloc; " acts {} {}", name(script, point.0), point.1)?;
        write_all(out, acts.as_bytes())?;
    }
    if let Some(cycle) = told.marked {
        let marked = format!(in alloc; " cycle {cycle} is marked")?;
        write_all(out, marked.as_bytes())?;
    }
    let said = said(alloc, script, told.event)?;
    write_all(out, said.as_bytes())?;
    let marks = match told.marks {
        Some(marks) => format!(in alloc; " marks {marks}\n")?,
        None => format!(in alloc; "\n")?,
    };
    write_all(out, marks.as_bytes())?;
    Ok(())
}

/// What a step says.
fn said(alloc: Global, script: &Script, event: Event) -> Result<String, AllocError> {
    match event {
        Event::Answered { g, n, answer } => {
            let told = answered(alloc, script, answer)?;
            format!(in alloc; " answers {} {n} {told}", name(script, g))
        }
        Event::Swept { k, marked, freed } => {
            format!(in alloc; " cycle {k} is swept, marked {marked} freed {freed}")
        }
        Event::Finished => format!(in alloc; " is done"),
        Event::Moved => format!(in alloc; ""),
    }
}

/// What a statement is told.
pub fn answered(alloc: Global, script: &Script, answer: Answer) -> Result<String, AllocError> {
    match answer {
        Answer::Done => format!(in alloc; "done"),
        Answer::Nil => format!(in alloc; "nil"),
        Answer::Int(n) => format!(in alloc; "int {n}"),
        Answer::Ref(made) => format!(in alloc; "ref {}.{}", name(script, made.g), made.k),
        Answer::Swept => format!(in alloc; "swept"),
        Answer::Full => format!(in alloc; "full"),
        Answer::Fault(Fault::NilBase) => format!(in alloc; "fault nil"),
        Answer::Fault(Fault::Field) => format!(in alloc; "fault field"),
        Answer::Fault(Fault::Kind) => format!(in alloc; "fault kind"),
    }
}

/// Writes how many turns there were.
pub fn end<K: Sink>(alloc: Global, turns: u32, out: &mut K) -> Result<(), Stop> {
    let line = format!(in alloc; "turns {turns}\n")?;
    write_all(out, line.as_bytes())?;
    Ok(())
}

/// What an actor is.
fn kind_of(script: &Script, actor: u8) -> &'static str {
    let settings = script.settings();
    let actor = u32::from(actor);
    if actor < settings.procs {
        "processor"
    } else if actor.saturating_sub(settings.procs) < settings.workers {
        "worker"
    } else {
        "coordinator"
    }
}
