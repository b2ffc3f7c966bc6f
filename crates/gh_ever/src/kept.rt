//! The lists of the heap that never frees, and what statements do to them.

ghost use Rattle.std.specs.Prelude.{◌≡◌, ◌+◌, ◌<◌, ◌≤◌, ◌^◌, length, sum, vec_len, Some, None, IfOk, IfErr, slice_index, slice_set, true};
ghost use Rattle.gh_base.specs.declared.operation.Op.TheVariants.{New, Load, Store, GetGlobal, SetGlobal};
ghost use Rattle.gh_base.specs.declared.value.Answer.TheVariants as answers;
ghost use Rattle.gh_model.specs.declared.EverValue.TheVariants.{Ref};
ghost use Rattle.gh_model.specs.Ever.{answer_of_value, has_field, is_pointer_field, load_answer, next_name, store_answer, with_end, with_object, with_register};
ghost use Rattle.gh_script.specs.Program.{statement_as_op};
ghost use Rattle.gh_ever.specs.Objects.{IsInKnown, IsKnown, kind_of};
ghost use Rattle.gh_ever.specs.Lists.{ever_of, opening_lists};
ghost use Rattle.gh_ever.specs.Sound.{AreSized};
ghost use Rattle.gh_ever.specs.Applied.{Applies, IsDue, NamesType, Spends, with_value};

use crate::cell::{Cell, Place, Places, held, put};
use crate::object::{Kinds, Object};
use crate::opening::total_of;
use crate::value::{first_value, fits, is_number, is_pointer, told};
use gh_base::{Answer, Fault, Name, Shapes};
use gh_model::EverValue;
use gh_script::Stmt;
use std::alloc::{AllocError, Global};
use std::collections::HashMap;
use std::marker::Model;

/// The heap that never frees, by lists, and by maps that find what stands in them.
#[derive(Debug, Drop)]
pub struct Kept {
    pub(crate) shapes: Shapes,
    pub(crate) left: Vec<u32>,
    pub(crate) made: Vec<u32>,
    pub(crate) ended: Vec<bool>,
    pub(crate) objects: Vec<Object>,
    pub(crate) kinds: Kinds,
    pub(crate) cells: Vec<Cell>,
    pub(crate) places: Places,
}

impl Model for Kept {
    ghost use Rattle.gh_ever.specs.Lists.{Lists};

    ghost Value = { Lists };

    ghost use Rattle.gh_ever.specs.Inside.{lists_of, IsSound};

    ghost view = { lists_of };

    ghost invariant = { IsSound };
}

impl Kept {
    /// The heap before any statement, with room for all that are to come.
    pub fn open(alloc: Global, shapes: Shapes, left: Vec<u32>) -> Result<Kept, AllocError>
        requires sized { AreSized shapes }
        requires few { vec_len left < 2 ^ 32 }
        ensures { IfOk result (λ lists. lists ≡ opening_lists shapes left.items) }
    {
        let statements = total_of(&left);
        Ok(Kept {
            shapes,
            made: vec![in alloc; 0; left.len()]?,
            ended: vec![in alloc; false; left.len()]?,
            left,
            objects: Vec::with_capacity(alloc, statements)?,
            kinds: HashMap::with_capacity(alloc, statements)?,
            cells: Vec::with_capacity(alloc, statements)?,
            places: HashMap::with_capacity(alloc, statements)?,
        })
    }

    /// A bound on the objects that there are, with those that the statements to come can make.
    pub fn room(&self) -> usize
        ensures { length self.now.objects + sum self.now.left ≤ result }
    {
        self.objects.capacity()
    }

    /// What register `d` of goroutine `g` holds.
    #[tactic(auto, unfolding(crate::specs::Lists::ever_of))]
    fn register(&self, g: u32, d: u32) -> EverValue
        ensures value { result ≡ (ever_of self.now).register g d }
        ensures known { IsKnown self.now.objects result }
    {
        held(&self.cells, &self.places, Place::Register(g, d)).unwrap_or(EverValue::Nil)
    }

    /// What global `k` holds.
    #[tactic(auto, unfolding(crate::specs::Lists::ever_of))]
    fn global(&self, k: u32) -> EverValue
        ensures value { result ≡ (ever_of self.now).global k }
        ensures known { IsKnown self.now.objects result }
    {
        held(&self.cells, &self.places, Place::Global(k)).unwrap_or(EverValue::Nil)
    }

    /// The type of the object.
    #[tactic(auto, unfolding(crate::specs::Lists::ever_of))]
    fn kind(&self, n: Name) -> u32
        requires { IsKnown self.now.objects (Ref n) }
        ensures value { result ≡ (ever_of self.now).type_of n }
        ensures made { kind_of self.now.objects n ≡ Some result }
        ensures within { result < length self.now.shapes }
    {
        *self.kinds.get(&(n.g, n.k)).unwrap()
    }

    /// What field `k` of the object holds.
    #[tactic(auto, unfolding(crate::specs::Lists::ever_of))]
    fn field(&self, n: Name, k: u32) -> EverValue
        requires { IsKnown self.now.objects (Ref n) }
        ensures value { result ≡ (ever_of self.now).field n k }
        ensures known { IsKnown self.now.objects result }
    {
        match held(&self.cells, &self.places, Place::Field(n, k)) {
            Some(value) => value,
            None => first_value(self.is_pointer_field(n, k)),
        }
    }

    /// That the object has field `k`.
    #[tactic(auto, unfolding(crate::specs::Lists::ever_of))]
    fn has_field(&self, n: Name, k: u32) -> bool
        requires { IsKnown self.now.objects (Ref n) }
        ensures { result ≡ has_field self.now.shapes (ever_of self.now) n k }
    {
        k < gh_class::slot_words(self.shapes.words(self.kind(n)))
    }

    /// That field `k` of the object is a pointer.
    #[tactic(auto, unfolding(crate::specs::Lists::ever_of))]
    fn is_pointer_field(&self, n: Name, k: u32) -> bool
        requires { IsKnown self.now.objects (Ref n) }
        ensures { result ≡ is_pointer_field self.now.shapes (ever_of self.now) n k }
    {
        is_pointer(&self.shapes, self.kind(n), k)
    }

    /// The name of the next object that goroutine `g` makes.
    #[tactic(auto, unfolding(crate::specs::Lists::ever_of))]
    fn next_name(&self, g: u32) -> Name
        requires { g < length self.now.left }
        ensures { result ≡ next_name (ever_of self.now) g }
    {
        Name {
            g,
            k: self.made[g as usize],
        }
    }

    /// What a load of field `k` through `base` finds.
    fn find(&self, base: EverValue, k: u32) -> Result<EverValue, Fault>
        requires { IsKnown self.now.objects base }
        ensures found { IfOk result (λ v. load_answer self.now.shapes (ever_of self.now) base k ≡ answer_of_value v) }
        ensures known { IfOk result (IsKnown self.now.objects) }
        ensures fault { IfErr result (λ f. load_answer self.now.shapes (ever_of self.now) base k ≡ answers.Fault f) }
    {
        match base {
            EverValue::Ref(n) => {
                if self.has_field(n, k) {
                    Ok(self.field(n, k))
                } else {
                    Err(Fault::Field)
                }
            }
            _ => Err(Fault::NilBase),
        }
    }

    /// The object whose field `k` a store of `value` through `base` changes.
    fn target(&self, base: EverValue, k: u32, value: EverValue) -> Result<Name, Fault>
        requires { IsKnown self.now.objects base }
        ensures found { IfOk result (λ n. base ≡ Ref n) }
        ensures done { IfOk result (λ n. store_answer self.now.shapes (ever_of self.now) base k value ≡ answers.Done) }
        ensures fault { IfErr result (λ f. store_answer self.now.shapes (ever_of self.now) base k value ≡ answers.Fault f) }
    {
        match base {
            EverValue::Ref(n) => {
                if !self.has_field(n, k) {
                    Err(Fault::Field)
                } else if !fits(self.is_pointer_field(n, k), value) {
                    Err(Fault::Kind)
                } else {
                    Ok(n)
                }
            }
            _ => Err(Fault::NilBase),
        }
    }

    /// A statement of goroutine `g` changes nothing.
    fn pass(&mut self, g: u32)
        requires { IsDue self.old g }
        ensures after { ever_of self.new ≡ ever_of self.old }
        ensures spends { Spends self.old self.new g }
    {
        self.left[g as usize] -= 1;
    }

    /// A statement of goroutine `g` puts the value at the place.
    fn write(&mut self, g: u32, place: Place, value: EverValue)
        requires due { IsDue self.old g }
        requires inside { IsInKnown self.old.objects place }
        requires known { IsKnown self.old.objects value }
        ensures after { ever_of self.new ≡ with_value (ever_of self.old) place value }
        ensures spends { Spends self.old self.new g }
    {
        put(&mut self.cells, &mut self.places, place, value);
        self.left[g as usize] -= 1;
    }

    /// A statement of goroutine `g` makes an object of type `t`, which register `d` names.
    fn make(&mut self, g: u32, d: u32, t: u32) -> Name
        requires due { IsDue self.old g }
        requires typed { t < length self.old.shapes }
        ensures named { result ≡ next_name (ever_of self.old) g }
        ensures after { ever_of self.new ≡ with_register (with_object self.old.shapes (ever_of self.old) g t) g d (Ref result) }
        ensures spends { Spends self.old self.new g }
    {
        let name = self.next_name(g);
        let _ = self.kinds.insert((name.g, name.k), t);
        self.objects.push_reserved(Object { name, kind: t });
        self.made[g as usize] += 1;
        put(
            &mut self.cells,
            &mut self.places,
            Place::Register(g, d),
            EverValue::Ref(name),
        );
        self.left[g as usize] -= 1;
        name
    }

    /// `new d t` of goroutine `g`.
    fn new_object(&mut self, g: u32, d: u32, t: u32, told: Option<Answer>) -> Answer
        requires due { IsDue self.old g }
        requires typed { t < length self.old.shapes }
        ensures { Applies self.old self.new g (New g d t) told result }
    {
        if let Some(Answer::Full) = told {
            self.write(g, Place::Register(g, d), EverValue::Nil);
            Answer::Full
        } else {
            Answer::Ref(self.make(g, d, t))
        }
    }

    /// `load d b k` of goroutine `g`.
    fn load(&mut self, g: u32, d: u32, b: u32, k: u32) -> Answer
        requires { IsDue self.old g }
        ensures { Applies self.old self.new g (Load g d b k) None result }
    {
        match self.find(self.register(g, b), k) {
            Ok(value) => {
                self.write(g, Place::Register(g, d), value);
                told(value)
            }
            Err(fault) => {
                self.pass(g);
                Answer::Fault(fault)
            }
        }
    }

    /// `store b k v` of goroutine `g`.
    fn store(&mut self, g: u32, b: u32, k: u32, v: u32) -> Answer
        requires { IsDue self.old g }
        ensures { Applies self.old self.new g (Store g b k v) None result }
    {
        let value = self.register(g, v);
        match self.target(self.register(g, b), k, value) {
            Ok(n) => {
                self.write(g, Place::Field(n, k), value);
                Answer::Done
            }
            Err(fault) => {
                self.pass(g);
                Answer::Fault(fault)
            }
        }
    }

    /// `gload d k` of goroutine `g`.
    fn get_global(&mut self, g: u32, d: u32, k: u32) -> Answer
        requires { IsDue self.old g }
        ensures { Applies self.old self.new g (GetGlobal g d k) None result }
    {
        let value = self.global(k);
        self.write(g, Place::Register(g, d), value);
        told(value)
    }

    /// `gstore k v` of goroutine `g`.
    fn set_global(&mut self, g: u32, k: u32, v: u32) -> Answer
        requires { IsDue self.old g }
        ensures { Applies self.old self.new g (SetGlobal g k v) None result }
    {
        let value = self.register(g, v);
        if is_number(value) {
            self.pass(g);
            Answer::Fault(Fault::Kind)
        } else {
            self.write(g, Place::Global(k), value);
            Answer::Done
        }
    }

    /// A statement of goroutine `g` puts the value into register `d`.
    fn set_register(&mut self, g: u32, d: u32, value: EverValue) -> Answer
        requires due { IsDue self.old g }
        requires known { IsKnown self.old.objects value }
        ensures done { result ≡ answers.Done }
        ensures after { ever_of self.new ≡ with_register (ever_of self.old) g d value }
        ensures spends { Spends self.old self.new g }
    {
        self.write(g, Place::Register(g, d), value);
        Answer::Done
    }

    /// A statement of goroutine `g`.
    pub fn apply(&mut self, g: u32, s: &Stmt, told: Option<Answer>) -> Answer
        requires due { IsDue self.old g }
        requires typed { NamesType self.old.shapes s.now }
        ensures { Applies self.old self.new g (statement_as_op g s.now) told result }
    {
        match *s {
            Stmt::New { d, t } => self.new_object(g, d, t, told),
            Stmt::Load { d, b, k } => self.load(g, d, b, k),
            Stmt::Store { b, k, v } => self.store(g, b, k, v),
            Stmt::GetGlobal { d, k } => self.get_global(g, d, k),
            Stmt::SetGlobal { k, v } => self.set_global(g, k, v),
            Stmt::Int { d, n } => self.set_register(g, d, EverValue::Int(n)),
            Stmt::Move { d, s } => self.set_register(g, d, self.register(g, s)),
            Stmt::Nil { d } => self.set_register(g, d, EverValue::Nil),
            Stmt::Gc => {
                self.pass(g);
                Answer::Swept
            }
        }
    }

    /// Goroutine `g` ends.
    pub fn end(&mut self, g: u32)
        requires { g < length self.old.left }
        ensures after { ever_of self.new ≡ with_end (ever_of self.old) g }
        ensures same { self.new ≡ record self.old { ended = slice_set self.old.ended g true } }
    {
        self.ended[g as usize] = true;
    }
}
