//! The load and the store of a global.

ghost use Rattle.std.specs.Prelude.{◌≡◌, ℕ, ◌<◌, true, false, IfSome, List, None, Some, is_some};
ghost use Rattle.gh_base.specs.Cells.{InRange};
ghost use Rattle.gh_base.specs.Steps.{cell_of};
ghost use Rattle.gh_base.specs.declared.layout.Layout.{Layout};
ghost use Rattle.gh_base.specs.declared.shape.Shape.{Shape};
ghost use Rattle.gh_base.specs.declared.value.Value.{Value};
ghost use Rattle.gh_mutator.specs.Fields.{value_told};
ghost use Rattle.gh_barrier.specs.declared.pointer_cell.PointerCell.TheVariants as pointer_cell;
ghost use Rattle.gh_mutator.specs.declared.global.GlobalStage.TheVariants as stage;
ghost use Rattle.gh_poll.specs.Barrier.{has_entries, written};
ghost use Rattle.gh_poll.specs.Local.{marking_at};
ghost use Rattle.gh_mutator.specs.Global.{asks, begins_load, begins_store, naming, step};
ghost use Rattle.gh_mutator.specs.Listing.{acts, asks as asks_of, begins, gives, gives_at, is_busy_at, takes, takes_at};
ghost use Rattle.gh_mutator.specs.Mutating.{is_direct_at};
ghost use Rattle.gh_mutator.specs.Serving.{is_last, is_point, is_serving, statement_answer};
ghost use Rattle.gh_mutator.specs.Processor.{at_task, register_of};
ghost use Rattle.gh_mutator.specs.Tasks.{direct, global_of, as_global, then_global};
ghost use Rattle.gh_mutator.specs.declared.task.Task.TheVariants as task;
ghost use Rattle.gh_base.specs.declared.cell.Ask.TheVariants as ask;
ghost use Rattle.gh_poll.specs.PollSound.{SoundPolling};
ghost use Rattle.gh_poll.specs.Registers.{IsNear, IsRegister};
ghost use Rattle.gh_mutator.specs.Sound.{Sound, SoundGlobal, SoundOp};

use crate::field::{birth_cell, value_of, word_of_value};
use crate::processor::Processor;
use crate::step::{Step, Then};
use crate::task::{LargeTask, TaskAt};
use gh_barrier::{PointerCell, WritePointer};
use gh_base::{Answer, Ask, Cell, Fault, Layout, Name, Op, Shapes, Value};

/// Where the load or the store of a global stands. No value of it is made: it is what clauses speak of.
#[derive(Clone, Copy, Debug, PartialEq, Eq)]
pub enum GlobalStage {
    /// The load: it loads the global.
    Load,
    /// It loads the birth word of the object whose reference the global held.
    Birth {
        /// That object's first heap word.
        at: u32,
    },
    /// The store while marking is off: it stores the global.
    Store,
    /// The store while marking is on: it writes the global behind the write barrier.
    Writing(WritePointer),
    /// The store, where the register holds a number: a fault, for which it loads the touch word.
    Number,
}

/// The load or the store of global `k`: register `r` of goroutine `g` takes it, or it takes what the
/// register holds. It is kept as a [`Direct`] or a [`GlobalWrite`].
#[derive(Clone, Copy, Debug, PartialEq, Eq)]
pub struct Global {
    pub g: u32,
    pub r: u32,
    pub k: u32,
    pub stage: GlobalStage,
}

/// Where the load or the store of a global without a write barrier stands.
#[derive(Clone, Copy, Debug, PartialEq, Eq)]
pub enum DirectStage {
    /// The load: it loads the global.
    Load,
    /// It loads the birth word of the object whose reference the global held.
    Birth {
        /// That object's first heap word.
        at: u32,
    },
    /// The store while marking is off: it stores the global.
    Store,
    /// The store, where the register holds a number: a fault, for which it loads the touch word.
    Number,
}

/// The load or the store of a global without a write barrier, which is small.
#[derive(Clone, Copy, Debug, PartialEq, Eq)]
pub struct Direct {
    pub g: u32,
    pub r: u32,
    pub k: u32,
    pub stage: DirectStage,
}

/// The store of a global behind the write barrier.
#[derive(Clone, Copy, Debug, PartialEq, Eq)]
pub struct GlobalWrite {
    pub g: u32,
    pub r: u32,
    pub k: u32,
    pub write: WritePointer,
}

impl Direct {
    /// Begins the load of global `k` into register `d`.
    pub(crate) fn begin_load(g: u32, d: u32, k: u32) -> Direct
        ensures { global_of result ≡ begins_load g d k }
    {
        Direct {
            g,
            r: d,
            k,
            stage: DirectStage::Load,
        }
    }

    /// The step that it asks for, where its register holds this.
    pub(crate) fn ask(&self, layout: &Layout, held: Value) -> Ask
        requires { SoundGlobal layout.now.globals (global_of self.now) }
        ensures asks { result ≡ asks layout.now held (global_of self.now) }
        ensures within { InRange layout.now (cell_of result) }
    {
        match self.stage {
            DirectStage::Load => Ask::Load(Cell::Global(self.k)),
            DirectStage::Birth { at } => Ask::Load(birth_cell(layout, at)),
            DirectStage::Store => Ask::Store(Cell::Global(self.k), word_of_value(held)),
            DirectStage::Number => Ask::Load(Cell::Touch),
        }
    }

    /// What a found value is told as; of a reference the name is loaded first.
    fn told(self, value: Value) -> Then<Direct>
        requires { IsNear 1024 value }
        ensures { then_global result ≡ value_told (naming (global_of self)) value }
    {
        match value {
            Value::Nil => Then::Ends(Answer::Nil),
            Value::Int(number) => Then::Ends(Answer::Int(number)),
            Value::Ref(reference) => {
                let at = reference.saturating_sub(1) as u32;
                let stage = DirectStage::Birth { at };
                Then::GoesOn(Direct { stage, ..self })
            }
        }
    }

    /// What its step does that found this.
    pub(crate) fn step(self, layout: &Layout, found: u64) -> Step<Direct>
        ensures { (held : Value) → as_global result ≡ step layout.now held (global_of self) found }
    {
        match self.stage {
            DirectStage::Load => {
                let value = value_of(layout.pages, true, found);
                Step {
                    then: self.told(value),
                    sets: Some(value),
                    acts: true,
                }
            }
            DirectStage::Birth { at: _ } => Step {
                then: Then::Ends(Answer::Ref(Name::unpack(found, layout.goroutines))),
                sets: None,
                acts: false,
            },
            DirectStage::Store => Step::ends(Answer::Done),
            DirectStage::Number => Step::ends(Answer::Fault(Fault::Kind)),
        }
    }

    /// That it acts by its next step.
    pub(crate) fn acts(&self) -> bool
        ensures { (l : Layout) → (held : Value) → (found : ℕ) → result ≡ (step l held (global_of self.now) found).acts }
    {
        !matches!(self.stage, DirectStage::Birth { .. })
    }
}

impl<'s> Processor<'s> {
    /// A store of global `k` begins from register `v`.
    pub(crate) fn begin_set_global(&mut self, layout: &Layout, g: u32, k: u32, v: u32)
        requires polls { SoundPolling layout.now self.old.poll }
        requires global { k < layout.now.globals }
        requires register { IsRegister g v }
        requires near { IsNear layout.now.pages (register_of self.old g v) }
        requires room { has_entries self.old.poll ≡ true }
        ensures { self.new ≡ at_task self.old (task.Global (begins_store self.old.poll.local g k v (register_of self.old g v))) }
    {
        let stage = match self.poll.register(g, v) {
            Value::Int(_) => DirectStage::Number,
            held if self.poll.marking() => {
                self.begin_write(layout, g, k, v, held);
                return;
            }
            _ => DirectStage::Store,
        };
        self.at = TaskAt::Direct(Direct { g, r: v, k, stage });
    }

    /// The same behind the write barrier.
    // A function for what a large value is built in: it is then no part of the others, which would clear it.
    #[inline(never)]
    fn begin_write(&mut self, layout: &Layout, g: u32, k: u32, v: u32, held: Value)
        requires polls { SoundPolling layout.now self.old.poll }
        requires global { k < layout.now.globals }
        requires near { IsNear layout.now.pages held }
        requires marking { marking_at self.old.poll ≡ true }
        requires room { has_entries self.old.poll ≡ true }
        ensures { self.new ≡ at_task self.old (task.Global (record { g = g; r = v; k = k; stage = stage.Writing (written self.old.poll.local (pointer_cell.Global k) held) })) }
    {
        let write = self.poll.write(layout, PointerCell::Global(k), held);
        self.large = LargeTask::Write(GlobalWrite { g, r: v, k, write });
        self.at = TaskAt::Large;
    }

    /// Goes on with this load or store of a global.
    pub(crate) fn take_direct(&mut self, layout: &Layout, x: Direct, found: u64) -> Option<Answer>
        requires polls { SoundPolling layout.now self.old.poll }
        requires there { IsRegister x.g x.r }
        ensures goes { (shapes : List Shape) → self.new ≡ takes_at layout.now shapes self.old (direct x) found }
        ensures gives { result ≡ gives_at layout.now self.old (direct x) found }
        ensures polls { SoundPolling layout.now self.new.poll }
    {
        // The stage's type has to be named here: the prover builds no plan for `apply` without.
        let _stage = &x.stage;
        let step = x.step(layout, found);
        self.apply(x.g, x.r, step)
    }

    /// The first step of the load of a global, or of the store of one that needs no write barrier and is no fault, where the
    /// processor is idle: [`Processor::directly`] makes it.
    #[inline(always)]
    pub(crate) fn direct(&self, layout: &Layout, _shapes: &Shapes, op: Op) -> Option<Ask>
        requires polls { SoundPolling layout.now self.now.poll }
        requires op { SoundOp _shapes.now layout.now op }
        requires idle { is_busy_at self.now.task ≡ false }
        ensures exactly { is_some result ≡ is_direct_at self.now op }
        ensures asks { IfSome result (λ a. asks_of layout.now (begins _shapes.now self.now op) ≡ a) }
        ensures within { IfSome result (λ a. InRange layout.now (cell_of a)) }
    {
        let _ = layout;
        if !matches!(self.at, TaskAt::Idle) {
            return None;
        }
        match op {
            Op::GetGlobal { g: _, d: _, k } => Some(Ask::Load(Cell::Global(k))),
            Op::SetGlobal { g, k, v } => {
                if self.poll.marking() {
                    return None;
                }
                match self.poll.register(g, v) {
                    Value::Int(_) => None,
                    held => Some(Ask::Store(Cell::Global(k), word_of_value(held))),
                }
            }
            _ => None,
        }
    }

    /// Begins that operation and makes its first step, which found this, and answers the operation where it ends with the step. So
    /// the processor is where the task would have led it.
    #[inline(always)]
    pub(crate) fn directly(
        &mut self,
        layout: &Layout,
        shapes: &Shapes,
        op: Op,
        found: u64,
    ) -> Option<Answer>
        requires polls { SoundPolling layout.now self.old.poll }
        requires sound { Sound layout.now shapes.now self.old }
        requires op { SoundOp shapes.now layout.now op }
        requires idle { is_busy_at self.old.task ≡ false }
        requires direct { is_direct_at self.old op ≡ true }
        ensures goes { self.new ≡ takes layout.now shapes.now (begins shapes.now self.old op) found }
        ensures gives { result ≡ gives layout.now (begins shapes.now self.old op) found }
        ensures serves { is_serving (begins shapes.now self.old op).task ≡ true }
        ensures goes_on { is_last (begins shapes.now self.old op).task ≡ false }
        ensures acts { is_point (acts layout.now (begins shapes.now self.old op) found) ≡ true }
        ensures polls { SoundPolling layout.now self.new.poll }
        ensures sound { Sound layout.now shapes.now self.new }
    {
        let _ = shapes;
        match op {
            Op::GetGlobal { g, d, k } => {
                let value = value_of(layout.pages, true, found);
                self.poll.set_register(g, d, value);
                match value {
                    Value::Nil => Some(Answer::Nil),
                    Value::Int(number) => Some(Answer::Int(number)),
                    Value::Ref(reference) => {
                        let at = reference.saturating_sub(1) as u32;
                        let stage = DirectStage::Birth { at };
                        self.at = TaskAt::Direct(Direct { g, r: d, k, stage });
                        None
                    }
                }
            }
            Op::SetGlobal { .. } => Some(Answer::Done),
            _ => None,
        }
    }

    /// The cell that its next step loads, where it loads the name of an object to which a global referred.
    #[inline(always)]
    pub(crate) fn names_at(&self, layout: &Layout) -> Option<Cell>
        ensures asks { IfSome result (λ c. asks_of layout.now self.now ≡ ask.Load c) }
        ensures within { IfSome result (InRange layout.now) }
        ensures busy { IfSome result (λ c. is_busy_at self.now.task ≡ true) }
    {
        match &self.at {
            TaskAt::Direct(x) => match x.stage {
                DirectStage::Birth { at } => Some(birth_cell(layout, at)),
                _ => None,
            },
            _ => None,
        }
    }

    /// Makes the step that found this at once, where by it such a load ends, and answers the load then; where not, nothing has
    /// changed.
    #[inline(always)]
    pub(crate) fn names(&mut self, layout: &Layout, _shapes: &Shapes, found: u64) -> Option<Answer>
        requires polls { SoundPolling layout.now self.old.poll }
        requires sound { Sound layout.now _shapes.now self.old }
        ensures goes { IfSome result (λ a. self.new ≡ takes layout.now _shapes.now self.old found) }
        ensures last { IfSome result (λ a. is_last self.old.task ≡ false) }
        ensures point { IfSome result (λ a. is_point (acts layout.now self.old found) ≡ false) }
        ensures answer { IfSome result (λ a. statement_answer layout.now self.old found ≡ Some a) }
        ensures polls { SoundPolling layout.now self.new.poll }
        ensures sound { Sound layout.now _shapes.now self.new }
        ensures stays { result ≡ None → self.new ≡ self.old }
    {
        match &self.at {
            TaskAt::Direct(x) => match x.stage {
                DirectStage::Birth { .. } => {
                    self.at = TaskAt::Idle;
                    Some(Answer::Ref(Name::unpack(found, layout.goroutines)))
                }
                _ => None,
            },
            _ => None,
        }
    }
}
