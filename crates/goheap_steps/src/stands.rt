//! How each actor stands when a run is broken off: how many steps it has taken, and what it has acknowledged and answered.

use crate::arena::name;
use crate::now::phase_name;
use crate::shades::word;
use crate::stop::Stop;
use gh_base::{BufferWord, Cell, END, GONE, PhaseWord};
use gh_io::{Sink, write_all};
use gh_script::Script;
use gh_world::{Event, World};
use std::alloc::{AllocError, Global};

/// What is counted of a run.
#[derive(Drop)]
pub struct Stands {
    // By actor.
    steps: [u64; 256],
    is_done: [bool; 256],
    // By goroutine.
    answers: [u32; 256],
}

impl Stands {
    /// Before the first turn.
    pub fn new() -> Stands {
        Stands {
            steps: [0; 256],
            is_done: [false; 256],
            answers: [0; 256],
        }
    }

    /// The actor has taken a step, which says this.
    pub fn note(&mut self, actor: u8, event: Event) {
        let at = usize::from(actor);
        self.steps[at] = self.steps[at].saturating_add(1);
        match event {
            Event::Answered { g, .. } => self.answer(g),
            Event::Finished => self.is_done[at] = true,
            Event::Swept { .. } | Event::Moved => {}
        }
    }

    fn answer(&mut self, g: u32) {
        let at = g as usize;
        if at < 256 {
            self.answers[at] = self.answers[at].saturating_add(1);
        }
    }

    /// Writes how each stands, after so many turns.
    pub fn tell<K: Sink>(
        &self,
        alloc: Global,
        script: &Script,
        world: &World<'_>,
        turns: u64,
        out: &mut K,
    ) -> Result<(), Stop> {
        let heap = of_heap(alloc, world, turns)?;
        write_all(out, heap.as_bytes())?;
        let cycles = of_cycles(alloc, world)?;
        write_all(out, cycles.as_bytes())?;
        self.tell_actors(alloc, world, out)?;
        self.tell_goroutines(alloc, script, world, out)
    }

    fn tell_actors<K: Sink>(
        &self,
        alloc: Global,
        world: &World<'_>,
        out: &mut K,
    ) -> Result<(), Stop> {
        for actor in 0..world.actors() {
            let line = self.of_actor(alloc, world, actor)?;
            write_all(out, line.as_bytes())?;
        }
        Ok(())
    }

    fn of_actor(&self, alloc: Global, world: &World<'_>, actor: u8) -> Result<String, AllocError> {
        let at = usize::from(actor);
        let ack = of_word(
            alloc,
            word(world, Cell::Ack(u32::from(actor))),
            GONE,
            "gone",
        )?;
        let goes = if self.is_done[at] { "done" } else { "going" };
        format!(in alloc; "actor {actor} steps {} ack {ack} {goes}\n", self.steps[at])
    }

    fn tell_goroutines<K: Sink>(
        &self,
        alloc: Global,
        script: &Script,
        world: &World<'_>,
        out: &mut K,
    ) -> Result<(), Stop> {
        for g in 0..world.layout().goroutines {
            let line = self.of_goroutine(alloc, script, world, g)?;
            write_all(out, line.as_bytes())?;
        }
        Ok(())
    }

    fn of_goroutine(
        &self,
        alloc: Global,
        script: &Script,
        world: &World<'_>,
        g: u32,
    ) -> Result<String, AllocError> {
        let answers = match self.answers.get(g as usize) {
            Some(answers) => *answers,
            None => 0,
        };
        let scanned = of_word(alloc, word(world, Cell::Scanned(g)), END, "end")?;
        let of = name(script, g);
        format!(in alloc; "goroutine {of} answered {answers} scanned {scanned}\n")
    }
}

/// A word's number, or a name for the one that stands for no number.
fn of_word(alloc: Global, found: u64, last: u64, is_last: &str) -> Result<String, AllocError> {
    if found == last {
        return format!(in alloc; "{is_last}");
    }
    format!(in alloc; "{found}")
}

fn of_heap(alloc: Global, world: &World<'_>, turns: u64) -> Result<String, AllocError> {
    let phase = PhaseWord::unpack(word(world, Cell::Phase));
    let (of, stops) = (phase_name(phase.phase), phase.stops);
    let (lock, want) = (word(world, Cell::Lock), word(world, Cell::Want));
    format!(in alloc; "broken off {turns} phase {of} {stops} lock {lock} want {want}")
}

fn of_cycles(alloc: Global, world: &World<'_>) -> Result<String, AllocError> {
    let (begun, swept) = (word(world, Cell::Begun), word(world, Cell::Swept));
    let claimed = word(world, Cell::Gcur);
    let buffers = waiting_buffers(world);
    format!(in alloc; " begun {begun} swept {swept} claimed {claimed} buffers {buffers}\n")
}

/// How many work buffers have an entry, and are held by nobody.
fn waiting_buffers(world: &World<'_>) -> u32 {
    let mut many = 0u32;
    for b in 0..world.layout().buffers() {
        let buffer = BufferWord::unpack(word(world, Cell::Buffer(b)));
        if buffer.holder == 0 && buffer.count > 0 {
            many = many.saturating_add(1);
        }
    }
    many
}
