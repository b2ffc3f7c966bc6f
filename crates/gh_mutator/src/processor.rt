//! A processor: its private state, and where an operation begins.

ghost use Rattle.std.specs.Prelude.{◌≡◌, ◌<◌, ◌&&◌, not, length, List, IsTrue, true, false};
ghost use Rattle.gh_base.specs.declared.layout.Layout.{Layout};
ghost use Rattle.gh_base.specs.declared.limits.TheConstants.{MOST_GOROUTINES};
ghost use Rattle.gh_poll.specs.Barrier.{has_entries};
ghost use Rattle.gh_base.specs.declared.operation.Op.TheVariants as ops;
ghost use Rattle.gh_base.specs.declared.shape.Shape.{Shape};
ghost use Rattle.gh_poll.specs.Local.{leaving, passes, with_nothing};
ghost use Rattle.gh_base.specs.Machines.{Runs};
ghost use Rattle.gh_poll.specs.Leave as leaves;
ghost use Rattle.gh_poll.specs.Room.{room_in};
ghost use Rattle.gh_mutator.specs.Listing.{begins, is_busy_at, takes};
ghost use Rattle.gh_mutator.specs.Serving.{has_left_at};
ghost use Rattle.gh_mutator.specs.Processor.{at_poll, at_task, opening_processor, register_of, set_register};
ghost use Rattle.gh_mutator.specs.declared.task.Task.TheVariants as task;
ghost use Rattle.gh_mutator.specs.Register as register;
ghost use Rattle.gh_mutator.specs.Store as stores;
ghost use Rattle.gh_base.specs.Shapes.{ShapesFit};
ghost use Rattle.gh_poll.specs.PollSound.{SoundPolling};
ghost use Rattle.gh_poll.specs.Registers.{IsNear, IsRegister};
ghost use Rattle.gh_mutator.specs.Sound.{has_names, has_room, Sound, SoundOp};

use crate::global::Direct;
use crate::load::Load;
use crate::register::{Register, Source};
use crate::store::Store;
use crate::task::{LargeTask, Statement, TaskAt};
use gh_base::limits::MOST_GOROUTINES;
use gh_base::{Layout, Op, Shapes, Value};
use gh_class::size_class_laws;
use gh_poll::{Local, Poll, Wait};
use std::marker::Model;

/// A processor.
#[derive(Drop)]
pub struct Processor<'s> {
    // Its seat and what it alone knows, with the poll that it is at, if it is at one.
    pub(crate) poll: Poll,
    // How many objects each goroutine has made.
    pub(crate) made: [u32; MOST_GOROUTINES as usize],
    // What it is at. The large task counts only where the tag says so.
    pub(crate) at: TaskAt,
    pub(crate) large: LargeTask<'s>,
}

impl<'s> Model for Processor<'s> {
    ghost use Rattle.gh_mutator.specs.Processing.{Processor};
    ghost use Rattle.gh_mutator.specs.Tasks.{task_kept};

    ghost Value = { Processor };

    ghost view = { λ p. record { poll = p.poll; made = p.made; task = task_kept p.at p.large } };
}

/// A statement begins that register `d` of goroutine `g` takes a value.
fn begin_register(g: u32, d: u32, source: Source) -> Register
    ensures { result ≡ register.begins g d source }
{
    Register { g, d, source }
}

impl<'s> Processor<'s> {
    /// A processor before its first step.
    pub(crate) fn opening(seat: u32) -> Processor<'s>
        ensures is { result ≡ opening_processor seat }
        ensures polls { (l : Layout) → seat < l.procs → SoundPolling l result.poll }
    {
        let local = Local::first();
        Processor {
            poll: Poll::resting(seat, &local),
            made: [0; MOST_GOROUTINES as usize],
            at: TaskAt::Idle,
            // Some large task has to stand there: this one is never run.
            large: LargeTask::Store(Store::begin(0, 0, 0, 0, Value::Nil)),
        }
    }

    /// It has a step to make, with an operation begun.
    pub(crate) fn is_busy(&self) -> bool
        ensures { result ≡ is_busy_at self.now.task }
    {
        match self.at {
            TaskAt::Idle | TaskAt::Left => false,
            _ => true,
        }
    }

    /// Begins an operation.
    pub(crate) fn begin(&mut self, layout: &Layout, shapes: &Shapes, op: Op)
        requires polls { SoundPolling layout.now self.old.poll }
        requires sound { Sound layout.now shapes.now self.old }
        requires fit { ShapesFit shapes.now }
        requires op { SoundOp shapes.now layout.now op }
        requires names { has_names self.old op ≡ true }
        requires room { has_room self.old op ≡ true }
        ensures begins { self.new ≡ begins shapes.now self.old op }
        ensures polls { SoundPolling layout.now self.new.poll }
        ensures sound { Sound layout.now shapes.now self.new }
    {
        size_class_laws();
        match op {
            Op::New { g, d, t } => self.begin_new(layout, shapes, g, d, t),
            Op::Load { g, d, b, k } => {
                let base = self.poll.register(g, b);
                self.at = TaskAt::Load(Load::begin(g, d, b, k, base));
            }
            Op::Store { g, b, k, v } => self.begin_store(g, b, k, v),
            Op::GetGlobal { g, d, k } => self.at = TaskAt::Direct(Direct::begin_load(g, d, k)),
            Op::SetGlobal { g, k, v } => self.begin_set_global(layout, g, k, v),
            Op::Int { g, d, n } => self.at = TaskAt::Register(begin_register(g, d, Source::Int(n))),
            Op::Move { g, d, s } => self.at = TaskAt::Register(begin_register(
                g,
                d,
                Source::Move(s),
            )),
            Op::Nil { g, d } => self.at = TaskAt::Register(begin_register(g, d, Source::Nil)),
            Op::Gc { g } => self.at = TaskAt::Gc(g, Wait::begin(&self.poll)),
            Op::Poll => {
                self.poll.begin(false);
                self.at = TaskAt::Poll;
            }
            Op::End(g) => self.at = TaskAt::End(g),
            Op::Leave => self.begin_leave(layout),
        }
    }

    // A function for what large values are built in: they are then no part of the others, which would clear them.

    /// The store of field `k` begins.
    #[inline(never)]
    fn begin_store(&mut self, g: u32, b: u32, k: u32, v: u32)
        requires stacks { length self.old.poll.local.stacks ≡ MOST_GOROUTINES }
        requires register { IsRegister g b }
        requires near { IsNear 1024 (register_of self.old g b) }
        ensures { self.new ≡ at_task self.old (task.Store (stores.begins g b k v (register_of self.old g b))) }
    {
        let base = self.poll.register(g, b);
        let store = Store::begin(g, b, k, v, base);
        store.put(&mut self.at, &mut self.large);
    }

    /// The leave begins.
    #[inline(never)]
    fn begin_leave(&mut self, layout: &Layout)
        requires { SoundPolling layout.now self.old.poll }
        ensures is { self.new ≡ at_task (at_poll self.old (with_nothing self.old.poll)) (task.Leave (leaving self.old.poll)) }
        ensures leaves { Runs (leaves.listing layout.now) (leaving self.old.poll) }
        ensures polls { SoundPolling layout.now self.new.poll }
    {
        let leave = self.poll.leave(layout);
        self.large = LargeTask::Leave(leave);
        self.at = TaskAt::Large;
    }

    /// What this register holds.
    #[inline(always)]
    pub(crate) fn register(&self, g: u32, d: u32) -> Value
        requires stacks { length self.now.poll.local.stacks ≡ MOST_GOROUTINES }
        requires there { IsRegister g d }
        ensures { result ≡ register_of self.now g d }
    {
        self.poll.register(g, d)
    }

    /// This register takes the value.
    #[inline(always)]
    pub(crate) fn set_register(&mut self, g: u32, d: u32, value: Value)
        requires stacks { length self.old.poll.local.stacks ≡ MOST_GOROUTINES }
        requires there { IsRegister g d }
        ensures { self.new ≡ set_register self.old g d value }
    {
        self.poll.set_register(g, d, value);
    }

    /// There is room for the entries of a write barrier, or marking is off, as it knows.
    pub(crate) fn has_entries(&self) -> bool
        ensures { result ≡ has_entries self.now.poll }
    {
        self.poll.has_entries()
    }

    /// How many entries more it has room for, as it knows.
    pub(crate) fn room(&self) -> u32
        ensures { result ≡ room_in self.now.poll }
    {
        self.poll.room()
    }

    /// Makes a poll at once, by the phase word that it finds, where it is idle and that is all that the poll has to do.
    #[inline(always)]
    pub(crate) fn passes(&mut self, found: u64) -> bool
        requires { is_busy_at self.old.task ≡ false }
        ensures exactly { result ≡ (not (has_left_at self.old.task) && passes self.old.poll found) }
        ensures passed { IsTrue result → (l : Layout) → (shapes : List Shape) → self.new ≡ takes l shapes (begins shapes self.old ops.Poll) found }
        ensures polls { (l : Layout) → SoundPolling l self.old.poll → SoundPolling l self.new.poll }
        ensures sound { (l : Layout) → (shapes : List Shape) → Sound l shapes self.old → Sound l shapes self.new }
        ensures stays { result ≡ false → self.new ≡ self.old }
    {
        match self.at {
            TaskAt::Idle => self.poll.passes(found),
            _ => false,
        }
    }

    /// Makes a poll at once, by the phase word that it finds, while marking is on, where it is idle and the poll is only counted.
    #[inline(always)]
    pub(crate) fn passes_marking(&mut self, layout: &Layout, found: u64) -> bool
        requires idle { is_busy_at self.old.task ≡ false }
        requires polls { SoundPolling layout.now self.old.poll }
        ensures passed { IsTrue result → (shapes : List Shape) → self.new ≡ takes layout.now shapes (begins shapes self.old ops.Poll) found }
        ensures polls { SoundPolling layout.now self.new.poll }
        ensures sound { (shapes : List Shape) → Sound layout.now shapes self.old → Sound layout.now shapes self.new }
        ensures stays { result ≡ false → self.new ≡ self.old }
    {
        match self.at {
            TaskAt::Idle => self.poll.passes_marking(layout, found),
            _ => false,
        }
    }
}
