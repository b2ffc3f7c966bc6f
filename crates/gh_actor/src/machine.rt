//! The machine of any actor of a heap.

ghost use Rattle.std.specs.Prelude.{◌≡◌, ◌*◌, ◌<◌, IfSome};
ghost use Rattle.gh_base.specs.declared.value.Answer.{Answer};
ghost use Rattle.gh_mutator.specs.AtOnce.{object_in};
ghost use Rattle.gh_mutator.specs.Faults.{rested};
ghost use Rattle.gh_mutator.specs.Mutating.{Mutating};
ghost use Rattle.gh_mutator.specs.Processor.{register_of, set_register};
ghost use Rattle.gh_poll.specs.Registers.{IsNear, IsRegister};
ghost use Rattle.gh_actor.specs.declared.actor.HeapActor.TheVariants.{Runs};
ghost use Rattle.gh_actor.specs.Acting.{IsSoundIn};
ghost use Rattle.gh_actor.specs.Machines.{IsAtRest, IsProcessor};

use crate::actor::HeapActor;
use crate::plan::{AnyActor, HeapPlan};
use gh_base::{Answer, Layout, Machine, Op, Req, Routine, Value};
use gh_table::{Acts, Marked, Operates};
use std::marker::Model;

/// An actor with the layout of its heap, in which it is sound.
#[derive(Drop)]
pub struct ActorMachine<'s> {
    layout: Layout,
    actor: HeapActor<'s>,
}

impl<'s> Model for ActorMachine<'s> {
    ghost use Rattle.gh_actor.specs.Acting.{Acting, IsSoundIn};

    ghost Value = { Acting };

    ghost view = { λ m. record { layout = m.layout; actor = m.actor } };

    ghost invariant = { λ m. IsSoundIn m.layout m.actor };
}

impl<'s> ActorMachine<'s> {
    /// The machine of this actor of a heap of the layout.
    pub fn new(layout: &Layout, actor: HeapActor<'s>) -> ActorMachine<'s>
        requires { IsSoundIn layout.now actor }
        ensures { result ≡ record { layout = layout.now; actor = actor.entry } }
    {
        ActorMachine {
            layout: *layout,
            actor,
        }
    }

    /// The actor.
    #[inline(always)]
    pub fn actor(&self) -> &HeapActor<'s>
        ensures { result.now ≡ self.now.actor }
    {
        &self.actor
    }

    /// The actor alone.
    pub fn into_actor(self) -> HeapActor<'s>
        ensures { result ≡ self.entry.actor }
    {
        let ActorMachine { layout: _, actor } = self;
        actor
    }

    // A processor's load whose steps are made without a task.

    /// The first heap word of the object that register `b` of goroutine `g` names; `None` where it holds no reference.
    #[inline(always)]
    pub fn object(&self, g: u32, b: u32) -> Option<u32>
        requires processor { IsProcessor self.now.actor }
        requires register { IsRegister g b }
        ensures is { (m : Mutating) → self.now.actor ≡ Runs m → result ≡ object_in (register_of m.processor g b) }
        ensures within { IfSome result (λ at. at < 1024 * self.now.layout.pages) }
    {
        match &self.actor {
            HeapActor::Runs(processor) => processor.object(&self.layout, g, b),
            _ => None,
        }
    }

    /// Ends the load: register `d` of goroutine `g` takes the value that was found.
    #[inline(always)]
    pub fn loaded(&mut self, g: u32, d: u32, found: Value)
        requires rests { IsAtRest self.old.actor }
        requires register { IsRegister g d }
        requires near { IsNear self.old.layout.pages found }
        ensures is { (m : Mutating) (answer : Answer) → self.old.actor ≡ Runs m → self.new ≡ record self.old { actor = Runs (rested m (set_register m.processor g d found) answer) } }
        ensures layout { self.new.layout ≡ self.old.layout }
    {
        if let HeapActor::Runs(processor) = &mut self.actor {
            processor.loaded(&self.layout, g, d, found);
        }
    }

    /// Ends the load, which is answered a fault.
    #[inline(always)]
    pub fn refused(&mut self)
        requires { IsAtRest self.old.actor }
        ensures is { (m : Mutating) (answer : Answer) → self.old.actor ≡ Runs m → self.new ≡ record self.old { actor = Runs (rested m m.processor answer) } }
        ensures layout { self.new.layout ≡ self.old.layout }
    {
        if let HeapActor::Runs(processor) = &mut self.actor {
            processor.refused();
        }
    }
}

impl<'s> Machine for ActorMachine<'s> {
    ghost use Rattle.gh_actor.specs.Acting.{asks, gives, goes, is_busy, layout_of};
    ghost use Rattle.gh_actor.specs.ActingActs as proved;

    /// The answer of an operation; none where a worker or the coordinator is done.
    type Out = Option<Answer>;

    ghost layout = { layout_of };

    ghost busy = { is_busy };

    ghost asks = { asks };

    ghost goes = { goes };

    ghost gives = { gives };

    fn next(&self) -> Req {
        match &self.actor {
            HeapActor::Runs(processor) => processor.next(&self.layout),
            HeapActor::Marks(worker) => worker.next(&self.layout),
            HeapActor::Leads(coordinator) => coordinator.next(&self.layout),
        }
    }

    fn take(&mut self, found: u64) -> Option<Option<Answer>> {
        match &mut self.actor {
            HeapActor::Runs(processor) => match processor.take(&self.layout, found) {
                Some(answer) => Some(Some(answer)),
                None => None,
            },
            HeapActor::Marks(worker) => match worker.take(&self.layout, found) {
                Some(()) => Some(None),
                None => None,
            },
            HeapActor::Leads(coordinator) => match coordinator.take(&self.layout, found) {
                Some(()) => Some(None),
                None => None,
            },
        }
    }

    ghost ends = { proved.ends };

    ghost stays = { proved.stays };
}

impl<'s> Acts<HeapPlan, AnyActor, Op> for ActorMachine<'s> {
    ghost use Rattle.gh_actor.specs.Acting.{acts_as, Belongs};
    ghost use Rattle.gh_actor.specs.ActingActs as proved;

    ghost acts_as = { acts_as };

    ghost belongs = { Belongs };

    ghost belongs_once = { proved.belongs_once };

    ghost layout_is = { proved.layout_is };

    ghost busy_is = { proved.busy_is };

    ghost asks_is = { proved.asks_is };

    ghost takes_is = { proved.takes_is };

    ghost stores_blindly = { proved.stores_blindly };

    ghost still_belongs = { proved.still_belongs };
}

impl<'s> Marked for ActorMachine<'s> {
    ghost use Rattle.gh_actor.specs.Acting.{marked};

    ghost marked = { marked };

    fn marks(&self) -> u64 {
        match &self.actor {
            HeapActor::Runs(processor) => processor.marks(),
            HeapActor::Marks(worker) => worker.marks(),
            HeapActor::Leads(coordinator) => coordinator.marks(),
        }
    }
}

impl<'s> Operates<HeapPlan, AnyActor, Op> for ActorMachine<'s> {
    ghost use Rattle.gh_actor.specs.Acting.{begins, MayBegin};
    ghost use Rattle.gh_actor.specs.ActingActs as proved;

    ghost may = { MayBegin };

    ghost begins = { begins };

    fn begin_with(&mut self, op: &Op) {
        match &mut self.actor {
            HeapActor::Runs(processor) => processor.begin(&self.layout, *op),
            HeapActor::Marks(_) => unreachable!(),
            HeapActor::Leads(_) => unreachable!(),
        }
    }

    ghost idle = { proved.idle };

    ghost runs = { proved.runs };

    ghost begins_is = { proved.begins_is };

    ghost belongs_begun = { proved.belongs_begun };
}
