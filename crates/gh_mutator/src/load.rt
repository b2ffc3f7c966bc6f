//! A load: the page word of its object, the bit that tells a pointer from a number, the field, and, where
//! the field is a reference, the name of the object found.

ghost use Rattle.std.specs.Prelude.{◌≡◌, false, IfSome, IsTrue};
ghost use Rattle.gh_base.specs.Cells.{InRange};
ghost use Rattle.gh_base.specs.Steps.{cell_of};
ghost use Rattle.gh_base.specs.declared.cell.Ask.TheVariants as ask;
ghost use Rattle.gh_base.specs.declared.layout.Layout.{Layout};
ghost use Rattle.gh_mutator.specs.Fields.{value_told};
ghost use Rattle.gh_mutator.specs.Load.{asks, at_stage, begins, naming, step};
ghost use Rattle.gh_mutator.specs.Step.{goes_on};
ghost use Rattle.gh_poll.specs.Registers.{IsNear};
ghost use Rattle.gh_mutator.specs.Sound.{SoundLoad};

use crate::field::{
    birth_cell, bits_cell, field_cell, has_field, is_pointer_by, page_cell, value_of,
};
use crate::step::{Step, Then};
use gh_base::{Answer, Ask, Cell, Fault, Layout, Name, Value};
use gh_bitmap::ReadPointer;

/// Where a load stands.
#[derive(Clone, Copy, Debug, PartialEq, Eq)]
pub enum LoadStage {
    /// It loads the page word, for the words of the slot.
    Page,
    /// The word of the bitmap that has the field's bit.
    Bits,
    /// The field.
    Field {
        /// It is a pointer field.
        pointer: bool,
    },
    /// The birth word of the object whose reference the field held.
    Birth {
        /// That object's first heap word.
        at: u32,
    },
    /// The base register holds no reference: a fault, for which it loads the touch word.
    NilBase,
}

/// A load: register `d` takes field `k` of the object that register `b` names, of goroutine `g`.
#[derive(Clone, Copy, Debug, PartialEq, Eq)]
pub struct Load {
    pub g: u32,
    pub d: u32,
    pub b: u32,
    pub k: u32,
    /// The object's first heap word.
    pub at: u32,
    pub stage: LoadStage,
}

impl Load {
    /// Begins a load through a register that holds this.
    pub(crate) fn begin(g: u32, d: u32, b: u32, k: u32, base: Value) -> Load
        requires { IsNear 1024 base }
        ensures { result ≡ begins g d b k base }
    {
        let (at, stage) = match base {
            Value::Ref(reference) => (reference.saturating_sub(1) as u32, LoadStage::Page),
            _ => (0, LoadStage::NilBase),
        };
        Load {
            g,
            d,
            b,
            k,
            at,
            stage,
        }
    }

    /// The same load at another stage.
    fn at_stage(self, stage: LoadStage) -> Load
        ensures { result ≡ at_stage self stage }
    {
        Load { stage, ..self }
    }

    /// The step that it asks for.
    pub(crate) fn ask(&self, layout: &Layout) -> Ask
        requires { SoundLoad layout.now.pages self.now }
        ensures asks { result ≡ asks layout.now self.now }
        ensures within { InRange layout.now (cell_of result) }
    {
        match self.stage {
            LoadStage::NilBase => Ask::Load(Cell::Touch),
            LoadStage::Page => Ask::Load(page_cell(layout, self.at)),
            LoadStage::Bits => ReadPointer::new(self.at + self.k).ask(layout),
            LoadStage::Field { pointer: _ } => Ask::Load(field_cell(layout, self.at + self.k)),
            LoadStage::Birth { at } => Ask::Load(birth_cell(layout, at)),
        }
    }

    /// What a found value is told as; of a reference the name is loaded first.
    fn told(self, value: Value) -> Then<Load>
        requires { IsNear 1024 value }
        ensures { result ≡ value_told (naming self) value }
    {
        match value {
            Value::Nil => Then::Ends(Answer::Nil),
            Value::Int(number) => Then::Ends(Answer::Int(number)),
            Value::Ref(reference) => {
                let at = reference.saturating_sub(1) as u32;
                Then::GoesOn(self.at_stage(LoadStage::Birth { at }))
            }
        }
    }

    /// What its step does that found this.
    pub(crate) fn step(self, layout: &Layout, found: u64) -> Step<Load>
        requires { SoundLoad layout.now.pages self }
        ensures { result ≡ step layout.now self found }
    {
        match self.stage {
            LoadStage::NilBase => Step::ends(Answer::Fault(Fault::NilBase)),
            LoadStage::Page => {
                if has_field(self.k, found) {
                    Step::goes_on(self.at_stage(LoadStage::Bits))
                } else {
                    Step::ends(Answer::Fault(Fault::Field))
                }
            }
            LoadStage::Bits => {
                let pointer = is_pointer_by(layout, self.at + self.k, found);
                Step::goes_on(self.at_stage(LoadStage::Field { pointer }))
            }
            LoadStage::Field { pointer } => {
                let value = value_of(layout.pages, pointer, found);
                Step {
                    then: self.told(value),
                    sets: Some(value),
                    acts: true,
                }
            }
            LoadStage::Birth { at: _ } => Step {
                then: Then::Ends(Answer::Ref(Name::unpack(found, layout.goroutines))),
                sets: None,
                acts: false,
            },
        }
    }

    /// That it acts by the step that finds this.
    pub(crate) fn acts(&self, found: u64) -> bool
        ensures { (l : Layout) → result ≡ (step l self.now found).acts }
    {
        match self.stage {
            LoadStage::NilBase | LoadStage::Field { .. } => true,
            LoadStage::Page => !has_field(self.k, found),
            LoadStage::Bits | LoadStage::Birth { .. } => false,
        }
    }

    /// The cell that its next step loads, where that is the page word or the word of the bitmap.
    #[inline(always)]
    pub(crate) fn looks(&self, layout: &Layout) -> Option<Cell>
        requires { SoundLoad layout.now.pages self.now }
        ensures asks { IfSome result (λ c. asks layout.now self.now ≡ ask.Load c) }
        ensures within { IfSome result (InRange layout.now) }
    {
        match self.stage {
            LoadStage::Page => Some(page_cell(layout, self.at)),
            LoadStage::Bits => Some(bits_cell(layout, self.at + self.k)),
            _ => None,
        }
    }

    /// Makes the step that found this at once, where by it the load goes on to the word of the bitmap or to the field, and answers
    /// whether that is so; where not, nothing has changed.
    #[inline(always)]
    pub(crate) fn reads(&mut self, layout: &Layout, found: u64) -> bool
        requires { SoundLoad layout.now.pages self.old }
        ensures goes { IsTrue result → step layout.now self.old found ≡ goes_on self.new }
        ensures sound { SoundLoad layout.now.pages self.new }
        ensures stays { result ≡ false → self.new ≡ self.old }
    {
        match self.stage {
            LoadStage::Page => {
                if !has_field(self.k, found) {
                    return false;
                }
                self.stage = LoadStage::Bits;
                true
            }
            LoadStage::Bits => {
                let pointer = is_pointer_by(layout, self.at + self.k, found);
                self.stage = LoadStage::Field { pointer };
                true
            }
            _ => false,
        }
    }
}
