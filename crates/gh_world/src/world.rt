//! A world: the words of a heap, and the actors over them that run a script.
//!
//! The world keeps no list of its steps. What it promises is said of every list that it may be the
//! state of: one step of it is one entry more of that list.

ghost use Rattle.std.specs.Prelude.{◌≡◌, ◌+◌, ◌%◌, ◌^◌, ◌<◌, ◌≤◌, List, [], length, slice_get, slice_index, true, false, IfOk, IfSome, IsTrue, None, Some};
ghost use Rattle.gh_base.specs.Cells.{InRange, length_of, seats_of, word_of};
ghost use Rattle.gh_base.specs.Machines.{IsBusy};
ghost use Rattle.gh_base.specs.Steps.{cell_of, changed, request, target};
ghost use Rattle.gh_world.specs.Schedule.{turn_from};
ghost use Rattle.gh_base.specs.declared.machine.Entry.{Entry};
ghost use Rattle.gh_base.specs.declared.operation.Op.{Op};
ghost use Rattle.gh_coord.specs.Keeping.{last_kept};
ghost use Rattle.gh_coord.specs.Listing as coord;
ghost use Rattle.gh_coord.specs.Sound.{listing, SoundCoordinating};
ghost use Rattle.gh_worker.specs.Listing as worker;
ghost use Rattle.gh_worker.specs.Listing.{Working};
ghost use Rattle.gh_worker.specs.Sound.{SoundWorking};
ghost use Rattle.gh_world.specs.After.{Appends, IsAfter};
ghost use Rattle.gh_world.specs.Runs.{IsRun, drawn_of, marked_by};
ghost use Rattle.gh_world.specs.Turns.{total_of};
ghost use Rattle.gh_world.specs.Wishes.{most_cycles};
ghost use Rattle.gh_world.specs.World.{actors_of, answered_of, cycles_of, is_done, lapsed_of, layout_of, live_of, marks_of, pacing_of, points_of, script_of, turn_in, workers_at, AllDone, AreOpening, IsStepOfCoordinator, IsStepOfProcessor, IsStepOfWorker, LaysOut};

use crate::event::{Event, Totals, done_or, told_event};
use crate::progress::note;
use crate::runner::Runner;
use crate::turns::total_of;
use crate::wishes::most_cycles;
use gh_base::laws::{a_state_is_of_its_own_entries, steps_are_shown};
use gh_base::{Answer, Ask, Cell, Layout, LayoutPlan, Op, Routine};
use gh_coord::laws::it_goes_on_until_done;
use gh_coord::{Coord, Cycle, first_trigger};
use gh_mutator::Processor;
use gh_mutator::laws::polls_make_room;
use gh_script::Script;
use gh_words::{Plain, Words};
use gh_worker::Worker;
use gh_worker::laws::workers_are_routines;
use std::alloc::{AllocError, Global};
use std::marker::Model;

/// The words of a heap, and the actors over them that run a script: the processors by their seats from actor 0
/// on, the workers, and the coordinator behind them.
#[derive(Drop)]
pub struct World<'s> {
    script: &'s Script,
    layout: Layout,
    words: Plain,
    runners: Vec<Runner<'s>>,
    workers: Vec<Worker>,
    coord: Coord,
    // The goroutine and the number of each statement, in the order of their points.
    points: Vec<(u32, u32)>,
}

impl<'s> Model for World<'s> {
    ghost use Rattle.std.specs.Prelude.{vec_len};
    ghost use Rattle.std.specs.Vec.{vec_capacity};
    ghost use Rattle.gh_world.specs.World.{SoundState, State};

    ghost Value = { State };

    ghost view = { λ w. record { script = w.script.now; layout = w.layout; words = w.words; runners = w.runners.items; workers = w.workers.items; coord = w.coord; points = w.points.items } };

    ghost invariant = { λ w. SoundState (record { script = w.script.now; layout = w.layout; words = w.words; runners = w.runners.items; workers = w.workers.items; coord = w.coord; points = w.points.items }) (vec_len w.points) (vec_capacity w.points) };
}

/// The processors of a heap that run the script, each before its first step.
fn runners_of<'s>(
    alloc: Global,
    layout: &Layout,
    script: &'s Script,
) -> Result<Vec<Runner<'s>>, AllocError>
    ensures { IfOk result (λ runners. AreOpening script.now layout.now runners.items) }
{
    let mut runners = Vec::with_capacity(alloc, layout.procs as usize)?;
    for seat in 0..layout.procs {
        runners.push_reserved(Runner::opening(script, seat));
    }
    Ok(runners)
}

/// The workers of a heap, each before its first step.
fn workers_of(alloc: Global, layout: &Layout) -> Result<Vec<Worker>, AllocError>
    ensures { IfOk result (λ ws. ws.items ≡ workers_at layout.now) }
{
    let (first, many) = (layout.procs, layout.workers);
    let mut workers = Vec::with_capacity(alloc, many as usize)?;
    for i in 0..many {
        workers.push_reserved(Worker::new(first + i));
    }
    Ok(workers)
}

/// One step of a worker that is not idle. Mostly it waits: it loads a word that it looks at, and goes on at once
/// ([`Worker::goes_on`]). So that load is a step of its own here, and tried first.
#[inline(never)]
fn work_on(layout: &Layout, words: &mut Plain, machine: &mut Worker) -> Option<()>
    requires sound { SoundWorking layout.now machine.old }
    requires busy { worker.is_busy machine.old.stage ≡ true }
    requires long { length words.old ≡ length_of layout.now }
    ensures within { InRange layout.now (cell_of (worker.asks layout.now machine.old)) }
    ensures words { words.new ≡ changed (request layout.now (worker.asks layout.now machine.old)) words.old }
    ensures machine { machine.new ≡ worker.goes layout.now machine.old (slice_index words.old (target (request layout.now (worker.asks layout.now machine.old)))) }
    ensures out { result ≡ worker.given machine.new }
    ensures sound { SoundWorking layout.now machine.new }
{
    if let Some(cell) = machine.looks() {
        let word = layout.word(cell);
        let found = words.word_at(word);
        if machine.goes_on(layout, found) {
            return None;
        }
        return machine.take(layout, found);
    }
    let found = words.step(machine.next(layout));
    machine.take(layout, found)
}

/// One step of a coordinator that is not idle, in the same way.
#[inline(never)]
fn lead_on(layout: &Layout, words: &mut Plain, machine: &mut Coord) -> Option<()>
    requires sound { SoundCoordinating layout.now machine.old }
    requires busy { IsBusy (listing layout.now) machine.old }
    requires long { length words.old ≡ length_of layout.now }
    ensures within { InRange layout.now (cell_of (coord.asks layout.now machine.old)) }
    ensures words { words.new ≡ changed (request layout.now (coord.asks layout.now machine.old)) words.old }
    ensures machine { machine.new ≡ coord.goes layout.now machine.old (slice_index words.old (target (request layout.now (coord.asks layout.now machine.old)))) }
    ensures out { result ≡ coord.given machine.new }
    ensures sound { SoundCoordinating layout.now machine.new }
{
    if let Some(cell) = machine.looks(layout) {
        let word = layout.word(cell);
        let found = words.word_at(word);
        if machine.goes_on(layout, found) {
            return None;
        }
        return machine.take(layout, found);
    }
    let found = words.step(machine.next(layout));
    machine.take(layout, found)
}

/// One step of a worker, which mostly finds that marking is off and a page without an unswept span. That is made where the caller
/// stands, and any other step by [`work_on`].
#[inline(always)]
fn step_of_worker(layout: &Layout, words: &mut Plain, machine: &mut Worker) -> Option<()>
    requires sound { SoundWorking layout.now machine.old }
    requires busy { worker.is_busy machine.old.stage ≡ true }
    requires long { length words.old ≡ length_of layout.now }
    ensures within { InRange layout.now (cell_of (worker.asks layout.now machine.old)) }
    ensures words { words.new ≡ changed (request layout.now (worker.asks layout.now machine.old)) words.old }
    ensures machine { machine.new ≡ worker.goes layout.now machine.old (slice_index words.old (target (request layout.now (worker.asks layout.now machine.old)))) }
    ensures out { result ≡ worker.given machine.new }
    ensures sound { SoundWorking layout.now machine.new }
{
    if !machine.is_idle() {
        return work_on(layout, words, machine);
    }
    let word = words.step(machine.next(layout));
    machine.idle(layout, word);
    None
}

/// One step of the coordinator, which mostly is idle, in the same way.
#[inline(always)]
fn step_of_coordinator(layout: &Layout, words: &mut Plain, machine: &mut Coord) -> Option<()>
    requires sound { SoundCoordinating layout.now machine.old }
    requires busy { IsBusy (listing layout.now) machine.old }
    requires long { length words.old ≡ length_of layout.now }
    ensures within { InRange layout.now (cell_of (coord.asks layout.now machine.old)) }
    ensures words { words.new ≡ changed (request layout.now (coord.asks layout.now machine.old)) words.old }
    ensures machine { machine.new ≡ coord.goes layout.now machine.old (slice_index words.old (target (request layout.now (coord.asks layout.now machine.old)))) }
    ensures out { result ≡ coord.given machine.new }
    ensures sound { SoundCoordinating layout.now machine.new }
{
    if !machine.is_idle() {
        return lead_on(layout, words, machine);
    }
    let found = words.step(machine.next(layout));
    machine.idle(layout, found);
    None
}

/// The layout of the script's heap: all pages of its arena are in use from the opening on.
pub fn layout_for(script: &Script) -> Layout
    ensures { LaysOut script.now result }
{
    script.is_well_formed();
    let settings = script.settings();
    let plan = LayoutPlan {
        opened: settings.arena,
        pages: settings.arena,
        globals: settings.globals,
        procs: settings.procs,
        workers: settings.workers,
        goroutines: script.goroutines(),
    };
    match Layout::new(plan) {
        Ok(layout) => layout,
        Err(_) => unreachable!(),
    }
}

/// The word that the trigger of the script's heap opens with, in bytes: the coordinator's first.
pub fn opening_trigger(script: &Script, layout: &Layout) -> u64
    requires { LaysOut script.now layout.now }
    ensures { result ≡ (pacing_of script.now).trigger }
{
    script.is_well_formed();
    let settings = script.settings();
    first_trigger(layout, settings.gogc, settings.minheap)
}

impl<'s> World<'s> {
    /// A world over the script as it opens. All its memory is taken here: no step takes any.
    pub fn new(alloc: Global, script: &'s Script) -> Result<World<'s>, AllocError>
        ensures opens { IfOk result (λ w. IsAfter w []) }
        ensures script { IfOk result (λ w. script_of w ≡ script.now) }
        ensures layout { IfOk result (λ w. LaysOut script.now (layout_of w)) }
    {
        script.is_well_formed();
        let settings = script.settings();
        let layout = layout_for(script);
        let trigger = opening_trigger(script, &layout);
        let words = Plain::new(alloc, &layout, trigger)?;
        let runners = runners_of(alloc, &layout, script)?;
        workers_are_routines();
        let workers = workers_of(alloc, &layout)?;
        let seat = settings.procs + settings.workers;
        let cycles = most_cycles(script);
        let coord = Coord::new(
            alloc,
            &layout,
            seat,
            settings.gogc,
            settings.minheap,
            cycles,
        )?;
        let points = Vec::with_capacity(alloc, total_of(script))?;
        Ok(World {
            script,
            layout,
            words,
            runners,
            workers,
            coord,
            points,
        })
    }

    /// How many actors there are.
    pub fn actors(&self) -> u8
        ensures are { result ≡ actors_of self.now }
        ensures seats { result ≡ seats_of (layout_of self.now) }
    {
        (self.runners.len() + self.workers.len() + 1) as u8
    }

    /// One step of the actor, which is not done. Whatever legal list of steps this world is the state of, it is then
    /// the state of that list with one entry more, of the actor. The event says what that step was: with the answer of
    /// the statement that it ends, if it ends one. Takes no memory, and constant time.
    #[inline(always)]
    pub fn step(&mut self, actor: u8) -> Event
        requires actor { actor < actors_of self.old }
        requires going { is_done self.old actor ≡ false }
        ensures appended { (es : List (Entry Op)) → IsAfter self.old es → Appends self.new actor es result }
        ensures script { script_of self.new ≡ script_of self.old }
        ensures layout { layout_of self.new ≡ layout_of self.old }
        ensures actors { actors_of self.new ≡ actors_of self.old }
        ensures few { answered_of self.new ≤ total_of (script_of self.new) }
    {
        steps_are_shown(&self.layout);
        a_state_is_of_its_own_entries::<Processor<'_>, Op>();
        polls_make_room();
        let a = usize::from(actor);
        let procs = self.runners.len();
        if a < procs {
            self.run(actor)
        } else if a - procs < self.workers.len() {
            self.work(a - procs)
        } else {
            self.lead()
        }
    }

    /// The actor is done: a processor has left, a worker is gone, the last cycle is swept.
    pub fn is_done(&self, actor: u8) -> bool
        requires { actor < actors_of self.now }
        ensures { result ≡ is_done self.now actor }
    {
        let a = usize::from(actor);
        if let Some(runner) = self.runners.get(a) {
            return runner.mutator.has_left();
        }
        match self.workers.get(a - self.runners.len()) {
            Some(worker) => worker.is_done(),
            None => self.coord.is_done(),
        }
    }

    /// Whose turn it is, where it would be this actor's: the first from it on in ascending order, and behind
    /// the last from 0 on, that is not done. None: all actors are, and whatever list the world is the state of,
    /// that list is a whole run.
    pub fn turn_from(&self, actor: u8) -> Option<u8>
        requires { actor < actors_of self.now }
        ensures turn { result ≡ turn_from (is_done self.now) (actors_of self.now) actor }
        ensures in_lists { (es : List (Entry Op)) → IsAfter self.now es → result ≡ turn_in (script_of self.now) (layout_of self.now) es actor }
        ensures seats { actors_of self.now ≡ seats_of (layout_of self.now) }
        ensures going { IfSome result (λ a. (a < actors_of self.now) × (is_done self.now a ≡ false)) }
        ensures over { result ≡ None → AllDone self.now }
        ensures whole { result ≡ None → (es : List (Entry Op)) → IsAfter self.now es → IsRun (script_of self.now) (layout_of self.now) es }
    {
        let _ = &self.script;
        for a in actor..self.actors() {
            if !self.is_done(a) {
                return Some(a);
            }
        }
        for a in 0..actor {
            if !self.is_done(a) {
                return Some(a);
            }
        }
        None
    }

    /// All actors are done. Whatever list a world is the state of that is done, that list is a whole run.
    pub fn done(&self) -> bool
        ensures done { IsTrue result → AllDone self.now }
        ensures only { AllDone self.now → result ≡ true }
        ensures whole { IsTrue result → (es : List (Entry Op)) → IsAfter self.now es → IsRun (script_of self.now) (layout_of self.now) es }
    {
        let _ = &self.script;
        for actor in 0..self.actors() {
            if !self.is_done(actor) {
                return false;
            }
        }
        true
    }

    /// The actor's marks: how many statements a processor has answered, how many words a worker has
    /// scanned, how often the coordinator has stored the phase word.
    pub fn marks(&self, actor: u8) -> u64
        requires { actor < actors_of self.now }
        ensures { result ≡ marks_of self.now actor }
    {
        let a = usize::from(actor);
        if let Some(runner) = self.runners.get(a) {
            return runner.mutator.marks();
        }
        match self.workers.get(a - self.runners.len()) {
            Some(worker) => worker.marks(),
            None => self.coord.marks(),
        }
    }

    /// The layout of the heap: which cells it has.
    pub fn layout(&self) -> &Layout
        ensures { result.now ≡ layout_of self.now }
    {
        &self.layout
    }

    /// The cell's word, as it stands between two steps. To look at it is no step.
    pub fn word(&self, cell: Cell) -> u64
        requires { InRange (layout_of self.now) cell }
        ensures { result ≡ slice_index self.now.words (word_of (layout_of self.now) cell) }
    {
        self.words.word_at(self.layout.word(cell))
    }

    /// The goroutine and the number, counted from 1, of each statement that has had its point, in
    /// the order of their points.
    pub fn points(&self) -> &[(u32, u32)]
        ensures { result.now ≡ points_of self.now }
    {
        &self.points
    }

    /// The swept cycles, in their order.
    pub fn cycles(&self) -> &[Cycle]
        ensures are { result.now ≡ cycles_of self.now }
        ensures few { length result.now ≤ most_cycles (script_of self.now) }
    {
        self.coord.cycles()
    }

    /// What is known at the end, where all actors are done.
    pub fn totals(&self) -> Totals
        requires { AllDone self.now }
        ensures objects { result.objects ≡ marked_by (last_kept self.now.coord.cycles) }
        ensures live { result.live ≡ live_of self.now }
        ensures credit { (result.earned ≡ (drawn_of self.now + lapsed_of self.now) % 2 ^ 64) × (result.spent ≡ drawn_of self.now % 2 ^ 64) × (result.lapsed ≡ lapsed_of self.now) }
    {
        let objects = match self.coord.last_cycle() {
            Some(cycle) => cycle.marked,
            None => 0,
        };
        let (spent, lapsed) = (self.spent(), self.coord.lapsed());
        Totals {
            objects,
            live: self.coord.live(),
            earned: spent.wrapping_add(lapsed),
            spent,
            lapsed,
        }
    }

    /// The words of credit that its processors have drawn, modulo 2^64.
    fn spent(&self) -> u64
        ensures { result ≡ drawn_of self.now % 2 ^ 64 }
    {
        let mut spent: u64 = 0;
        for runner in &self.runners {
            spent = spent.wrapping_add(runner.mutator.spent());
        }
        spent
    }

    /// One step of the processor at this seat: it begins its next operation where none is begun.
    #[inline(always)]
    fn run(&mut self, seat: u8) -> Event
        requires there { seat < length self.old.runners }
        requires going { is_done self.old seat ≡ false }
        ensures steps { IsStepOfProcessor self.old self.new seat result }
        ensures few { answered_of self.new ≤ total_of (script_of self.new) }
    {
        polls_make_room();
        let runner = &mut self.runners[usize::from(seat)];
        if let Some(is_point) = runner.moves(
            self.script,
            &self.layout,
            u32::from(seat),
            &mut self.words,
        ) {
            if !is_point {
                return Event::Moved;
            }
            note(&mut self.points, runner.progress.now(), true);
            return Event::Moved;
        }
        self.run_on(seat)
    }

    /// The same, where it is none of the steps that are made at once ([`Runner::moves`]).
    #[inline(always)]
    fn run_on(&mut self, seat: u8) -> Event
        requires there { seat < length self.old.runners }
        requires going { is_done self.old seat ≡ false }
        ensures steps { IsStepOfProcessor self.old self.new seat result }
        ensures few { answered_of self.new ≤ total_of (script_of self.new) }
    {
        polls_make_room();
        let runner = &mut self.runners[usize::from(seat)];
        let seat = u32::from(seat);
        if let Some(op) = runner.due(self.script) {
            if runner.sets(self.script, &self.layout, seat, op, &mut self.words) {
                let (g, n) = runner.progress.now();
                note(&mut self.points, (g, n), true);
                return Event::Answered {
                    g,
                    n,
                    answer: Answer::Done,
                };
            }
            if let Op::GetGlobal { .. } | Op::SetGlobal { .. } = op {
                if let Some(event) = runner.directs(
                    self.script,
                    &self.layout,
                    seat,
                    op,
                    &mut self.words,
                ) {
                    note(&mut self.points, runner.progress.now(), true);
                    return event;
                }
            }
        }
        let (event, is_point) = runner.run(self.script, &self.layout, seat, &mut self.words);
        let now = runner.progress.now();
        note(&mut self.points, now, is_point);
        event
    }

    /// One step of worker `i`, counted from 0.
    #[inline(always)]
    fn work(&mut self, i: usize) -> Event
        requires there { i < length self.old.workers }
        requires busy { (x : Working) → slice_get self.old.workers i ≡ Some x → worker.is_busy x.stage ≡ true }
        ensures { IsStepOfWorker self.old self.new i result }
    {
        let worker = &mut self.workers[i];
        let out = step_of_worker(&self.layout, &mut self.words, worker);
        done_or(out, Event::Moved)
    }

    /// One step of the coordinator.
    #[inline(always)]
    fn lead(&mut self) -> Event
        requires { coord.is_busy self.old.coord.stage ≡ true }
        ensures { IsStepOfCoordinator self.old self.new result }
    {
        it_goes_on_until_done();
        let told = self.coord.told();
        let out = step_of_coordinator(&self.layout, &mut self.words, &mut self.coord);
        done_or(out, told_event(told))
    }
}
