//! The coordinator's machine.

ghost use Rattle.std.specs.Prelude.{◌≡◌, ◌+◌, ◌<◌, ◌≤◌, ◌^◌, length, IfOk, IfSome, IsTrue, Option, false, true};
ghost use Rattle.gh_base.specs.declared.pack.Phase.{Phase};
ghost use Rattle.gh_base.specs.Cells.{InRange};
ghost use Rattle.gh_base.specs.Packing.{phase_word};
ghost use Rattle.gh_pacer.specs.declared.pacing.TheConstants.{MOST_GOGC};
ghost use Rattle.gh_coord.specs.declared.count.Counted.{Counted};
ghost use Rattle.gh_coord.specs.declared.watch.Watched.{Watched};
ghost use Rattle.gh_coord.specs.Listing.{after_ack, after_check, after_close, after_count, after_open, after_stop, after_stop_again, after_sweep, after_tell, after_want, after_watch, asks, counted, cycle_of, given, goes, goes_at, is_done_at, is_ending, is_idle, lapsed_at, next_stop, opening, stores_phase, stops_world, told_at, watches};
ghost use Rattle.gh_coord.specs.Keeping.{last_kept};
ghost use Rattle.gh_coord.specs.Pacing.{first_trigger};
ghost use Rattle.gh_coord.specs.Sound.{SoundCoordinating, SoundStage};

use crate::close::Close;
use crate::count::{Count, Counted};
use crate::cycles::{Cycle, Cycles};
use crate::laws::the_parts_are_routines;
use crate::open::Open;
use crate::pacing::{first_trigger, next_goal, next_trigger, next_work};
use crate::stop::Stop;
use crate::sweep_all::SweepAll;
use crate::tell::Tell;
use crate::watch::{Watch, Watched};
use gh_base::{Ask, Cell, GONE, Layout, Phase, PhaseWord, Req, Routine, TallyWord};
use std::alloc::{AllocError, Global};
use std::marker::Model;

/// How many numbers of stops there are: those that a phase word holds.
const STOPS: u64 = 1 << 62;
/// How many sweep generations there are: those that a page word holds.
const GENERATIONS: u64 = 1 << 34;

/// The stages of the coordinator.
#[derive(Clone, Copy)]
pub enum CoordStage {
    /// It is idle, and loads the acknowledgement of this processor: whether that is done.
    LoadAck(u32),
    /// It is idle, and loads the request for a cycle.
    LoadWant,
    /// It stops the world, to open a cycle.
    Stop(Stop),
    /// It opens a cycle.
    Open(Open),
    /// It looks whether marking is over, while the world runs.
    Watch(Watch),
    /// It stops the world, since marking seems to be over.
    StopAgain(Stop),
    /// It checks that marking is over, while the world is stopped.
    Check(Watch),
    /// It stores the phase word: marking is not over, and the world runs.
    MarkOn,
    /// It ends marking, and lets the world run.
    Close(Close),
    /// It sees to it that each span is swept, while goroutines run.
    Sweep(SweepAll),
    /// It reads what all sweeps have counted.
    Count(Count),
    /// It tells that the cycle is swept.
    Tell(Tell),
    /// The last cycle is swept.
    Done,
}

/// The coordinator (what Go's `gcStart`, `gcMarkDone` and `gcMarkTermination` do, mgc.go, on whatever
/// goroutine calls them): it opens cycles, finds out that their marking is over, has the spans swept, and
/// tells that they are.
///
/// A private number begins anew where its word ends: the stops modulo 2^62, the cycles modulo 2^64, the
/// sweep generation modulo 2^34, the credit that has lapsed modulo 2^64.
#[derive(Drop)]
pub struct Coord {
    seat: u32,
    gogc: u32,
    minheap: u32,
    // The number of the first acknowledgement's word. It is kept, since every second step of an idle coordinator loads one.
    first_ack: u32,
    stops: u64,
    begun: u64,
    generation: u64,
    live: u64,
    // The credit that had lapsed by the last cycle whose marking was ended.
    lapsed: u64,
    is_last: bool,
    marks: u64,
    cycles: Cycles,
    // The acknowledgement that it loads next, if it does. Then `stage` is `LoadWant`, so that an idle step writes this alone and no
    // stage, which has room for the largest.
    looks: Option<u32>,
    stage: CoordStage,
}

impl Model for Coord {
    ghost use Rattle.std.specs.Prelude.{◌≤◌};
    ghost use Rattle.gh_pacer.specs.declared.pacing.TheConstants.{MOST_GOGC};
    ghost use Rattle.gh_coord.specs.Handshake.{FitsNumbers};
    ghost use Rattle.gh_coord.specs.Listing.{Coordinating};
    ghost use Rattle.gh_coord.specs.Sound.{LooksSo, stage_kept};

    ghost Value = { Coordinating };

    ghost view = { λ c. record { seat = c.seat; gogc = c.gogc; minheap = c.minheap; first_ack = c.first_ack; stops = c.stops; begun = c.begun; generation = c.generation; live = c.live; lapsed = c.lapsed; is_last = c.is_last; marks = c.marks; cycles = c.cycles; stage = stage_kept c.looks c.stage } };

    ghost invariant = { λ c. (c.gogc ≤ MOST_GOGC) × FitsNumbers c.stops c.begun c.generation × LooksSo c.looks c.stage };
}

/// The cycle as it is kept.
fn cycle_of(k: u64, tally: TallyWord) -> Cycle
    ensures { result ≡ cycle_of k tally }
{
    Cycle {
        k,
        marked: u64::from(tally.marked),
        freed: u64::from(tally.freed),
    }
}

impl Coord {
    /// A coordinator before its first step, at this seat, which is the one behind the workers'. `gogc` is in
    /// percent, `minheap` in bytes. It keeps up to `cycles` swept cycles, whose memory is taken here: it is
    /// refused only where that is.
    pub fn new(
        alloc: Global,
        layout: &Layout,
        seat: u32,
        gogc: u32,
        minheap: u32,
        cycles: u32,
    ) -> Result<Coord, AllocError>
        requires seat { seat ≡ layout.now.procs + layout.now.workers }
        requires gogc { gogc ≤ MOST_GOGC }
        ensures opens { IfOk result (λ c. c ≡ opening layout.now seat gogc minheap cycles) }
        ensures sound { IfOk result (λ c. SoundCoordinating layout.now c) }
    {
        let cycles = Cycles::new(alloc, cycles)?;
        Ok(Coord {
            seat,
            gogc,
            minheap,
            first_ack: layout.word(Cell::Ack(0)),
            stops: 0,
            begun: 0,
            generation: 2,
            live: 0,
            lapsed: 0,
            is_last: false,
            marks: 0,
            cycles,
            looks: Some(0),
            stage: CoordStage::LoadWant,
        })
    }

    /// The word that the heap's trigger opens with, in bytes.
    pub fn opening(&self, layout: &Layout) -> u64
        ensures { result ≡ first_trigger layout.now.globals layout.now.goroutines self.now.gogc self.now.minheap }
    {
        first_trigger(layout, self.gogc, self.minheap)
    }

    /// The last cycle is swept, and it has no further step.
    pub fn is_done(&self) -> bool
        ensures { result ≡ is_done_at self.now.stage }
    {
        matches!(self.stage, CoordStage::Done)
    }

    /// It is idle: it waits until each processor is done, or a cycle is asked for.
    pub fn is_idle(&self) -> bool
        ensures { result ≡ is_idle self.now.stage }
    {
        matches!(self.stage, CoordStage::LoadWant)
    }

    /// How often it has stored the phase word. The number stands still at `u64::MAX`.
    pub fn marks(&self) -> u64
        ensures { result ≡ self.now.marks }
    {
        self.marks
    }

    /// The swept cycles in their order, as many as there is room for.
    pub fn cycles(&self) -> &[Cycle]
        ensures are { result.now ≡ self.now.cycles.items }
        ensures few { length result.now ≤ self.now.cycles.room }
    {
        self.cycles.as_slice()
    }

    /// The cycle that was kept last, if one was.
    pub fn last_cycle(&self) -> Option<Cycle>
        ensures { result ≡ last_kept self.now.cycles }
    {
        self.cycles.last()
    }

    /// The cycle that its next step tells to be swept, if it does.
    pub fn told(&self) -> Option<Cycle>
        ensures { result ≡ told_at self.now.cycles self.now.stage }
    {
        match &self.stage {
            CoordStage::Tell(tell) if tell.stores_swept() => self.cycles.last(),
            _ => None,
        }
    }

    /// The credit that has lapsed, in words, modulo 2^64.
    pub fn lapsed(&self) -> u64
        ensures { result ≡ lapsed_at self.now.lapsed self.now.stage }
    {
        match &self.stage {
            CoordStage::Close(close) => close.lapsed,
            _ => self.lapsed,
        }
    }

    /// The bytes that were marked in the last swept cycle; 0 before the first.
    pub fn live(&self) -> u64
        ensures { result ≡ self.now.live }
    {
        self.live
    }

    /// The number of the next stop.
    fn next_stop(&self) -> u64
        ensures is { result ≡ next_stop self.now.stops }
        ensures fits { result < 2 ^ 62 }
    {
        (self.stops + 1) % STOPS
    }

    /// Begins to stop the world, to open a cycle.
    // It stands apart, so that an idle step sets up no memory for it.
    #[inline(never)]
    fn stop_world(&mut self)
        ensures { self.new ≡ stops_world self.old }
    {
        self.stops = self.next_stop();
        self.looks = None;
        self.stage = CoordStage::Stop(Stop::new(self.stops));
    }

    /// Goes on by the acknowledgement of this processor.
    fn after_ack(&mut self, layout: &Layout, proc: u32, found: u64)
        requires there { proc < layout.now.procs }
        requires stage { self.old.stage ≡ CoordStage.LoadAck proc }
        ensures { self.new ≡ after_ack layout.now self.old proc found }
    {
        // Who is not gone may still ask for a cycle, so the request is looked at.
        if found != GONE {
            self.looks = None;
        } else if proc + 1 < layout.procs {
            self.looks = Some(proc + 1);
        } else {
            // All are gone, and nobody asks any more: one cycle more frees what they have left.
            self.is_last = true;
            self.stop_world();
        }
    }

    /// Goes on by the request for a cycle.
    fn after_want(&mut self, found: u64)
        requires { self.old.stage ≡ CoordStage.LoadWant }
        ensures { self.new ≡ after_want self.old found }
    {
        if found == 0 {
            self.looks = Some(0);
        } else {
            self.stop_world();
        }
    }

    /// Takes a step of the idle coordinator, which stores no phase word, and is not its last.
    #[inline(always)]
    pub fn idle(&mut self, layout: &Layout, found: u64)
        requires sound { SoundCoordinating layout.now self.old }
        requires idle { is_idle self.old.stage ≡ true }
        ensures goes { self.new ≡ goes layout.now self.old found }
        ensures goes_on { given self.new ≡ Option.None }
        ensures sound { SoundCoordinating layout.now self.new }
    {
        match self.looks {
            Some(proc) => self.after_ack(layout, proc, found),
            None => self.after_want(found),
        }
    }

    /// Goes on after a step of the stop: the cycle is opened where the world is stopped.
    fn after_stop(&mut self, layout: &Layout, out: Option<()>)
        ensures { self.new ≡ after_stop layout.now self.old out }
    {
        if out.is_some() {
            self.begun = self.begun.wrapping_add(1);
            let work = next_work(layout, self.gogc, self.minheap, self.live);
            let goal = next_goal(layout, self.gogc, self.minheap, self.live);
            let open = Open::new(self.stops, self.begun, work, goal);
            self.looks = None;
            self.stage = CoordStage::Open(open);
        }
    }

    /// Looks whether marking is over, while the world runs.
    fn watch(&mut self)
        ensures { self.new ≡ watches self.old }
    {
        self.looks = None;
        self.stage = CoordStage::Watch(Watch::new(self.begun));
    }

    /// Goes on after a step of the opening of a cycle.
    fn after_open(&mut self, out: Option<()>)
        ensures { self.new ≡ after_open self.old out }
    {
        if out.is_some() {
            self.watch();
        }
    }

    /// Goes on after a step of the look: it looks again, or stops the world.
    fn after_watch(&mut self, out: Option<Watched>)
        ensures { self.new ≡ after_watch self.old out }
    {
        match out {
            None => {}
            Some(Watched::NotYet) => self.watch(),
            Some(Watched::All) => {
                // What was seen one after the other, while others went on, may not hold together. So it is looked at once more where
                // nobody steps.
                self.stops = self.next_stop();
                self.looks = None;
                self.stage = CoordStage::StopAgain(Stop::new(self.stops));
            }
        }
    }

    /// The cell that its next step loads, where it looks whether marking is over.
    #[inline(always)]
    pub fn looks(&self, layout: &Layout) -> Option<Cell>
        ensures asks { IfSome result (λ c. asks layout.now self.now ≡ Ask.Load c) }
        ensures busy { IfSome result (λ c. given self.now ≡ Option.None) }
        ensures within { SoundCoordinating layout.now self.now → IfSome result (λ c. InRange layout.now c) }
    {
        match &self.stage {
            CoordStage::Watch(watch) => watch.looks(layout),
            CoordStage::Check(watch) => watch.looks(layout),
            _ => None,
        }
    }

    /// Goes on with that look, where the word is as wanted and another stands behind it, or begins it anew, where the word is not
    /// and the world runs, and answers whether it did. While marking is on almost each of its steps is such, and changes a number or two; where it did
    /// not, nothing has changed, and [`take`](Routine::take) makes the step.
    #[inline(always)]
    pub fn goes_on(&mut self, layout: &Layout, found: u64) -> bool
        requires sound { SoundCoordinating layout.now self.old }
        ensures goes { IsTrue result → self.new ≡ goes layout.now self.old found }
        ensures busy { IsTrue result → given self.new ≡ Option.None }
        ensures sound { SoundCoordinating layout.now self.new }
        ensures stays { result ≡ false → self.new ≡ self.old }
    {
        match &mut self.stage {
            CoordStage::Watch(watch) => {
                if watch.goes_on(layout, found) {
                    return true;
                }
                if watch.refuses(layout, found) {
                    *watch = Watch::new(self.begun);
                    return true;
                }
                false
            }
            CoordStage::Check(watch) => watch.goes_on(layout, found),
            _ => false,
        }
    }

    /// Goes on after a step of the second stop: what was seen is checked where the world is stopped.
    fn after_stop_again(&mut self, out: Option<()>)
        ensures { self.new ≡ after_stop_again self.old out }
    {
        if out.is_some() {
            self.looks = None;
            self.stage = CoordStage::Check(Watch::new(self.begun));
        }
    }

    /// Goes on after a step of the check: marking is ended, or goes on.
    fn after_check(&mut self, out: Option<Watched>)
        ensures { self.new ≡ after_check self.old out }
    {
        match out {
            None => {}
            // Somebody had still to give a buffer with entries back when it was looked at first: marking goes on.
            Some(Watched::NotYet) => {
                self.looks = None;
                self.stage = CoordStage::MarkOn;
            }
            Some(Watched::All) => {
                self.generation = (self.generation + 2) % GENERATIONS;
                let close = Close::new(self.lapsed, self.generation, self.stops);
                self.looks = None;
                self.stage = CoordStage::Close(close);
            }
        }
    }

    /// Goes on after a step of the end of marking.
    fn after_close(&mut self, out: Option<u64>)
        ensures { self.new ≡ after_close self.old out }
    {
        if let Some(lapsed) = out {
            // The goroutines run from here on, and whoever meets an unswept span sweeps it. The walk sees to it that none is left.
            self.lapsed = lapsed;
            self.looks = None;
            self.stage = CoordStage::Sweep(SweepAll::new(self.generation));
        }
    }

    /// Goes on after a step of the sweep.
    fn after_sweep(&mut self, out: Option<()>)
        ensures { self.new ≡ after_sweep self.old out }
    {
        if out.is_some() {
            self.looks = None;
            self.stage = CoordStage::Count(Count::new());
        }
    }

    /// Goes on after a step of the reading of the counts: the cycle is kept, and what it left live paces the next.
    fn after_count(&mut self, layout: &Layout, out: Option<Counted>)
        ensures { self.new ≡ after_count layout.now self.old out }
    {
        if let Some(counted) = out {
            self.live = counted.live;
            self.cycles.keep(cycle_of(self.begun, counted.tally));
            let trigger = next_trigger(layout, self.gogc, self.minheap, self.live);
            let tell = Tell::new(trigger, self.begun, self.stops, self.is_last);
            self.looks = None;
            self.stage = CoordStage::Tell(tell);
        }
    }

    /// Goes on after a step of the telling: it is idle, or done behind the last cycle.
    fn after_tell(&mut self, out: Option<()>)
        ensures { self.new ≡ after_tell self.old out }
    {
        if out.is_some() {
            if self.is_last {
                self.looks = None;
                self.stage = CoordStage::Done;
            } else {
                self.looks = Some(0);
                self.stage = CoordStage::LoadWant;
            }
        }
    }

    /// Its next step stores the phase word.
    fn stores_phase(&self) -> bool
        ensures { result ≡ stores_phase self.now.stage }
    {
        match &self.stage {
            CoordStage::Stop(stop) | CoordStage::StopAgain(stop) => stop.stores_phase(),
            CoordStage::Open(open) => open.stores_phase(),
            CoordStage::MarkOn => true,
            CoordStage::Close(close) => close.stores_phase(),
            CoordStage::Tell(tell) => tell.stores_phase(),
            _ => false,
        }
    }

    /// Counts the step, where it stores the phase word.
    fn count_mark(&mut self)
        ensures { self.new ≡ counted self.old }
    {
        if self.stores_phase() {
            self.marks = self.marks.saturating_add(1);
        }
    }

    /// Its marking has ended, or is being ended.
    fn is_ending(&self) -> bool
        ensures { result ≡ is_ending self.now.stage }
    {
        match self.stage {
            CoordStage::Close(_)
            | CoordStage::Sweep(_)
            | CoordStage::Count(_)
            | CoordStage::Tell(_)
            | CoordStage::Done => true,
            _ => false,
        }
    }

    /// Goes on after a step at work, up to the end of marking.
    fn go_on_marking(&mut self, layout: &Layout, found: u64)
        requires working { is_idle self.old.stage ≡ false }
        requires marking { is_ending self.old.stage ≡ false }
        requires sound { SoundStage layout.now self.old.stage }
        ensures { self.new ≡ goes_at layout.now self.old self.old.stage found }
    {
        match &mut self.stage {
            CoordStage::Stop(stop) => {
                let out = stop.take(layout, found);
                self.after_stop(layout, out);
            }
            CoordStage::Open(open) => {
                let out = open.take(layout, found);
                self.after_open(out);
            }
            CoordStage::Watch(watch) => {
                let out = watch.take(layout, found);
                self.after_watch(out);
            }
            CoordStage::StopAgain(stop) => {
                let out = stop.take(layout, found);
                self.after_stop_again(out);
            }
            CoordStage::Check(watch) => {
                let out = watch.take(layout, found);
                self.after_check(out);
            }
            CoordStage::MarkOn => self.watch(),
            _ => {}
        }
    }

    /// Goes on after a step from the end of marking on.
    fn go_on_ending(&mut self, layout: &Layout, found: u64)
        requires ending { is_ending self.old.stage ≡ true }
        requires sound { SoundStage layout.now self.old.stage }
        ensures { self.new ≡ goes_at layout.now self.old self.old.stage found }
    {
        match &mut self.stage {
            CoordStage::Close(close) => {
                let out = close.take(layout, found);
                self.after_close(out);
            }
            CoordStage::Sweep(sweep) => {
                let out = sweep.take(layout, found);
                self.after_sweep(out);
            }
            CoordStage::Count(count) => {
                let out = count.take(layout, found);
                self.after_count(layout, out);
            }
            CoordStage::Tell(tell) => {
                let out = tell.take(layout, found);
                self.after_tell(out);
            }
            _ => {}
        }
    }

    /// What it has given.
    fn given(&self) -> Option<()>
        ensures { result ≡ given self.now }
    {
        match self.stage {
            CoordStage::Done => Some(()),
            _ => None,
        }
    }

    /// The phase word while marking goes on.
    fn mark_word(&self) -> u64
        ensures { result ≡ phase_word (record { stops = self.now.stops; phase = Phase.Mark }) }
    {
        PhaseWord {
            stops: self.stops,
            phase: Phase::Mark,
        }
        .pack()
    }
}

impl Routine for Coord {
    ghost use Rattle.gh_coord.specs.Sound.{listing};

    type Out = ();

    ghost listing = { listing };

    // An idle step has an arm of its own, so that whoever makes it knows it to be a load.
    #[inline(always)]
    fn next(&self, layout: &Layout) -> Req {
        if let Some(proc) = self.looks {
            return Req::Load(self.first_ack + proc);
        }
        let ask = match &self.stage {
            CoordStage::LoadAck(proc) => return layout.request(Ask::Load(Cell::Ack(*proc))),
            CoordStage::LoadWant => return layout.request(Ask::Load(Cell::Want)),
            CoordStage::Stop(stop) | CoordStage::StopAgain(stop) => return stop.next(layout),
            CoordStage::Open(open) => return open.next(layout),
            CoordStage::Watch(watch) | CoordStage::Check(watch) => return watch.next(layout),
            CoordStage::MarkOn => Ask::Store(Cell::Phase, self.mark_word()),
            CoordStage::Close(close) => return close.next(layout),
            CoordStage::Sweep(sweep) => return sweep.next(layout),
            CoordStage::Count(count) => return count.next(layout),
            CoordStage::Tell(tell) => return tell.next(layout),
            CoordStage::Done => Ask::Load(Cell::Touch),
        };
        layout.request(ask)
    }

    fn take(&mut self, layout: &Layout, found: u64) -> Option<()> {
        if self.is_idle() {
            self.idle(layout, found);
            return None;
        }
        the_parts_are_routines();
        self.count_mark();
        if self.is_ending() {
            self.go_on_ending(layout, found);
        } else {
            self.go_on_marking(layout, found);
        }
        self.given()
    }
}
