//! A store: the page word of its object, the bit that tells a pointer from a number, and the field.

ghost use Rattle.std.specs.Prelude.{◌≡◌, true, false, IfSome, IsTrue, Option};
ghost use Rattle.gh_barrier.specs.Listing as writes;
ghost use Rattle.gh_base.specs.Cells.{InRange};
ghost use Rattle.gh_base.specs.Machines.{Runs};
ghost use Rattle.gh_base.specs.Steps.{cell_of, request};
ghost use Rattle.gh_base.specs.declared.cell.Ask.TheVariants as ask;
ghost use Rattle.gh_base.specs.declared.held.Held.{Held};
ghost use Rattle.gh_base.specs.declared.value.Value.{Value};
ghost use Rattle.gh_poll.specs.Barrier.{has_entries, held_then, with_held};
ghost use Rattle.gh_mutator.specs.Listing.{applied};
ghost use Rattle.gh_mutator.specs.Processor.{keeping, register_of};
ghost use Rattle.gh_mutator.specs.Step.{answered, goes_on};
ghost use Rattle.gh_mutator.specs.declared.task.Task.TheVariants as task;
ghost use Rattle.gh_poll.specs.PollSound.{SoundPolling};
ghost use Rattle.gh_poll.specs.Registers.{IsNear};
ghost use Rattle.gh_mutator.specs.Sound.{IsFieldNumber, SoundStore, StoreRoom};
ghost use Rattle.gh_mutator.specs.Store.{after_write, asks, at_stage, begins, by_kind, held_behind, step, stores};

use crate::field::{
    bits_cell, field_cell, has_field, is_pointer_by, kinds_differ, page_cell, pointer_cell,
    word_of_value,
};
use crate::processor::Processor;
use crate::step::Step;
use gh_barrier::WritePointer;
use gh_base::{Answer, Ask, Cell, Fault, Layout, Req, Routine, Value};
use gh_bitmap::ReadPointer;
use gh_poll::Poll;

/// Where a store stands.
#[derive(Clone, Copy, Debug, PartialEq, Eq)]
pub enum StoreStage {
    /// It loads the page word, for the words of the slot.
    Page,
    /// The word of the bitmap that has the field's bit.
    Bits,
    /// It stores the field: a number, or any value while marking is off.
    Field,
    /// It writes the field behind the write barrier: a pointer while marking is on.
    Writing(WritePointer),
    /// The base register holds no reference: a fault, for which it loads the touch word.
    NilBase,
}

/// A store: field `k` of the object that register `b` names takes what register `v` holds, of goroutine
/// `g`.
#[derive(Clone, Copy, Debug, PartialEq, Eq)]
pub struct Store {
    pub g: u32,
    pub b: u32,
    pub k: u32,
    pub v: u32,
    /// The object's first heap word.
    pub at: u32,
    pub stage: StoreStage,
}

impl Store {
    /// Begins a store through a register that holds this.
    pub(crate) fn begin(g: u32, b: u32, k: u32, v: u32, base: Value) -> Store
        requires { IsNear 1024 base }
        ensures { result ≡ begins g b k v base }
    {
        let (at, stage) = match base {
            Value::Ref(reference) => (reference.saturating_sub(1) as u32, StoreStage::Page),
            _ => (0, StoreStage::NilBase),
        };
        Store {
            g,
            b,
            k,
            v,
            at,
            stage,
        }
    }

    /// The same store at another stage.
    fn at_stage(&self, stage: StoreStage) -> Store
        ensures { result ≡ at_stage self.now stage }
    {
        Store { stage, ..*self }
    }

    /// The step that it asks for, where register `v` holds this.
    pub(crate) fn next(&self, layout: &Layout, poll: &Poll, held: Value) -> Req
        requires sound { SoundStore layout.now.pages self.now }
        requires room { StoreRoom layout.now poll.now self.now.stage }
        ensures asks { result ≡ request layout.now (asks layout.now held self.now) }
        ensures within { InRange layout.now (cell_of (asks layout.now held self.now)) }
    {
        let _ = poll;
        let ask = match &self.stage {
            StoreStage::NilBase => Ask::Load(Cell::Touch),
            StoreStage::Page => Ask::Load(page_cell(layout, self.at)),
            StoreStage::Bits => ReadPointer::new(self.at + self.k).ask(layout),
            StoreStage::Field => {
                let word = word_of_value(held);
                Ask::Store(field_cell(layout, self.at + self.k), word)
            }
            StoreStage::Writing(write) => return write.next(layout),
        };
        layout.request(ask)
    }

    /// Behind the bitmap word, which says whether the field is a pointer.
    fn by_kind(&self, layout: &Layout, poll: &Poll, held: Value, pointer: bool) -> Step<Store>
        requires polls { SoundPolling layout.now poll.now }
        requires sound { SoundStore layout.now.pages self.now }
        requires field { IsFieldNumber self.now.k }
        requires room { has_entries poll.now ≡ true }
        requires near { IsNear layout.now.pages held }
        ensures { result ≡ by_kind layout.now poll.now.local held self.now pointer }
    {
        if kinds_differ(pointer, held) {
            return Step::ends(Answer::Fault(Fault::Kind));
        }
        let stage = if pointer && poll.marking() {
            let at = pointer_cell(layout, self.at + self.k);
            StoreStage::Writing(poll.write(layout, at, held))
        } else {
            StoreStage::Field
        };
        Step::goes_on(self.at_stage(stage))
    }

    /// A step of its write.
    fn write(
        &self,
        layout: &Layout,
        poll: &mut Poll,
        write: &WritePointer,
        found: u64,
    ) -> Step<Store>
        requires polls { SoundPolling layout.now poll.old }
        requires runs { Runs (writes.listing layout.now) write.now }
        ensures is { result ≡ after_write self.now (writes.goes layout.now write.now found) (writes.gives layout.now write.now found) }
        ensures holds { poll.new ≡ with_held poll.old (held_then layout.now write.now found) }
        ensures polls { SoundPolling layout.now poll.new }
    {
        let mut write = *write;
        match poll.take_write(layout, &mut write, found) {
            None => Step::goes_on(self.at_stage(StoreStage::Writing(write))),
            Some(()) => Step::ends(Answer::Done),
        }
    }

    /// What its step does that found this. What its write holds is what the processor holds then.
    pub(crate) fn step(
        &self,
        layout: &Layout,
        poll: &mut Poll,
        held: Value,
        found: u64,
    ) -> Step<Store>
        requires polls { SoundPolling layout.now poll.old }
        requires sound { SoundStore layout.now.pages self.now }
        requires room { StoreRoom layout.now poll.old self.now.stage }
        requires near { IsNear layout.now.pages held }
        ensures is { result ≡ step layout.now poll.old.local held self.now found }
        ensures holds { poll.new ≡ with_held poll.old (held_behind layout.now poll.old.local.held self.now.stage found) }
        ensures polls { SoundPolling layout.now poll.new }
    {
        match &self.stage {
            StoreStage::NilBase => Step::ends(Answer::Fault(Fault::NilBase)),
            StoreStage::Page => {
                if has_field(self.k, found) {
                    Step::goes_on(self.at_stage(StoreStage::Bits))
                } else {
                    Step::ends(Answer::Fault(Fault::Field))
                }
            }
            StoreStage::Bits => {
                let pointer = is_pointer_by(layout, self.at + self.k, found);
                self.by_kind(layout, poll, held, pointer)
            }
            StoreStage::Field => Step::ends(Answer::Done),
            StoreStage::Writing(write) => self.write(layout, poll, write, found),
        }
    }

    /// That it acts by the step that finds this, where register `v` holds this.
    pub(crate) fn acts(&self, layout: &Layout, poll: &Poll, held: Value, found: u64) -> bool
        requires sound { SoundStore layout.now.pages self.now }
        requires room { StoreRoom layout.now poll.now self.now.stage }
        ensures { result ≡ (step layout.now poll.now.local held self.now found).acts }
    {
        match &self.stage {
            StoreStage::NilBase | StoreStage::Field => true,
            StoreStage::Page => !has_field(self.k, found),
            StoreStage::Bits => {
                kinds_differ(is_pointer_by(layout, self.at + self.k, found), held)
            }
            StoreStage::Writing(write) => write.is_point(),
        }
    }

    /// The cell that its next step loads, where that is the page word or the word of the bitmap.
    #[inline(always)]
    pub(crate) fn looks(&self, layout: &Layout) -> Option<Cell>
        requires { SoundStore layout.now.pages self.now }
        ensures asks { IfSome result (λ c. (held : Value) → asks layout.now held self.now ≡ ask.Load c) }
        ensures within { IfSome result (InRange layout.now) }
    {
        match &self.stage {
            StoreStage::Page => Some(page_cell(layout, self.at)),
            StoreStage::Bits => Some(bits_cell(layout, self.at + self.k)),
            _ => None,
        }
    }

    /// Makes the step that found this at once, where by it the store goes on to the word of the bitmap, or to the field without a write
    /// barrier, and answers whether that is so; where not, nothing has changed. Register `v` holds this.
    #[inline(always)]
    pub(crate) fn reads(&mut self, layout: &Layout, poll: &Poll, held: Value, found: u64) -> bool
        requires sound { SoundStore layout.now.pages self.old }
        requires room { StoreRoom layout.now poll.now self.old.stage }
        ensures goes { IsTrue result → step layout.now poll.now.local held self.old found ≡ goes_on self.new }
        ensures keeps { IsTrue result → (h : Option Held) → held_behind layout.now h self.old.stage found ≡ h }
        ensures same { (self.new.g ≡ self.old.g) × (self.new.v ≡ self.old.v) }
        ensures sound { SoundStore layout.now.pages self.new }
        ensures room { StoreRoom layout.now poll.now self.new.stage }
        ensures stays { result ≡ false → self.new ≡ self.old }
    {
        match &self.stage {
            StoreStage::Page => {
                if !has_field(self.k, found) {
                    return false;
                }
                self.stage = StoreStage::Bits;
                true
            }
            StoreStage::Bits => {
                let pointer = is_pointer_by(layout, self.at + self.k, found);
                if kinds_differ(pointer, held) || (pointer && poll.marking()) {
                    return false;
                }
                self.stage = StoreStage::Field;
                true
            }
            _ => false,
        }
    }
}

impl<'s> Processor<'s> {
    /// Goes on with this store.
    pub(crate) fn take_store(&mut self, layout: &Layout, x: &Store, found: u64) -> Option<Answer>
        requires polls { SoundPolling layout.now self.old.poll }
        requires sound { SoundStore layout.now.pages x.now }
        requires room { StoreRoom layout.now self.old.poll x.now.stage }
        requires near { IsNear layout.now.pages (register_of self.old x.now.g x.now.v) }
        ensures goes { self.new ≡ applied task.Store (keeping self.old (held_behind layout.now self.old.poll.local.held x.now.stage found)) x.now.g x.now.v (step layout.now self.old.poll.local (register_of self.old x.now.g x.now.v) x.now found) }
        ensures gives { result ≡ answered (step layout.now self.old.poll.local (register_of self.old x.now.g x.now.v) x.now found).then }
        ensures polls { SoundPolling layout.now self.new.poll }
    {
        // The stage's type has to be named here: the prover builds no plan for `apply` without.
        let _stage = &x.stage;
        let held = self.poll.register(x.g, x.v);
        let step = x.step(layout, &mut self.poll, held, found);
        self.apply(x.g, x.v, step)
    }
}
