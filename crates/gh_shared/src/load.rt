//! A load whose steps are made without a task.
//!
//! A processor's machine begins an operation with a task of 720 bytes, which is cleared whole, and asks for each step by all
//! that it may be at. A load has three or four steps, of which each is an atomic load, so that this takes ten times as long as
//! all that a load has to do. Here they stand one behind the other, as the machine would make them, and the processor takes the value at
//! the end. The entries of the actor are the same, and so is what the processor is afterwards.

ghost use Rattle.std.specs.Prelude.{◌≡◌, true};
ghost use Rattle.gh_base.specs.declared.operation.Op.TheVariants as ops;
ghost use Rattle.gh_base.specs.Lists.{by};
ghost use Rattle.gh_table.specs.Rule.{actor_in};
ghost use Rattle.gh_table.specs.Views.{Carries};
ghost use Rattle.gh_world.specs.World.{may_begin_of};
ghost use Rattle.gh_shared.specs.AtOnce.{RanAtOnce};
ghost use Rattle.gh_actor.specs.Machines.{HasShapes, IsProcessor, machine_actor, MachineMayBegin};
ghost use Rattle.gh_actor.specs.Plans.{setting};

use crate::heap::Heap;
use gh_actor::{ActorMachine, AnyActor, HeapPlan};
use gh_base::{Answer, Cell, Fault, Name, Op, Value};
use gh_mutator::field::{
    birth_cell, bits_cell, field_cell, has_field, is_pointer_by, page_cell, value_of,
};
use gh_table::{ActorSeat, load_cell};

impl Heap {
    /// Register `d` of goroutine `g` takes field `k` of the object in register `b`: the processor of this actor loads the page
    /// word of the object, the bit of the field, the field and, where that is a reference, the name of the object found. At
    /// most 4 steps.
    #[inline(always)]
    pub(crate) fn load_at_once<'s>(
        &self,
        actor: u32,
        machine: &mut ActorMachine<'s>,
        seat: &mut ActorSeat<HeapPlan, Op>,
        g: u32,
        d: u32,
        b: u32,
        k: u32,
    ) -> Answer
        requires table { (seat.old.table_id ≡ self.now.table.shared.table_id) × (seat.old.me.0.plan ≡ self.now.table.shared.key) }
        requires carries { Carries seat.old.me.0 actor }
        requires processor { IsProcessor machine.old.actor }
        requires laid { machine.old.layout ≡ seat.old.me.0.plan.layout }
        requires shapes { HasShapes seat.old.me.0.plan machine.old.actor }
        requires state { machine_actor machine.old.actor ≡ actor_in setting seat.old.me.0 actor }
        requires may { MachineMayBegin machine.old.layout machine.old.actor (ops.Load g d b k) }
        requires allowed { may_begin_of seat.old.me.0.plan.script seat.old.me.0.plan.layout actor (by actor seat.old.me.0.log) (ops.Load g d b k) ≡ true }
        ensures same { seat.new.table_id ≡ seat.old.table_id }
        ensures laid { machine.new.layout ≡ machine.old.layout }
        ensures ran { RanAtOnce machine.old.layout actor (ops.Load g d b k) 4 machine.old.actor seat.old.me machine.new.actor seat.new.me result }
    {
        let (words, layout) = (&self.table.shared, &self.layout);
        let begun = Some(Op::Load { g, d, b, k });
        let Some(at) = machine.object(g, b) else {
            load_cell::<AnyActor, Op, HeapPlan>(words, layout, seat, actor, &begun, Cell::Touch);
            machine.refused();
            return Answer::Fault(Fault::NilBase);
        };
        let page_at = page_cell(layout, at);
        let page = load_cell::<AnyActor, Op, HeapPlan>(words, layout, seat, actor, &begun, page_at);
        if !has_field(k, page) {
            machine.refused();
            return Answer::Fault(Fault::Field);
        }
        let bits_at = bits_cell(layout, at + k);
        let bits = load_cell::<AnyActor, Op, HeapPlan>(words, layout, seat, actor, &None, bits_at);
        let pointer = is_pointer_by(layout, at + k, bits);
        let field_at = field_cell(layout, at + k);
        let word = load_cell::<AnyActor, Op, HeapPlan>(words, layout, seat, actor, &None, field_at);
        let value = value_of(layout.pages, pointer, word);
        machine.loaded(g, d, value);
        match value {
            Value::Nil => Answer::Nil,
            Value::Int(number) => Answer::Int(number),
            Value::Ref(reference) => {
                let birth_at = birth_cell(layout, reference.saturating_sub(1) as u32);
                let birth = load_cell::<AnyActor, Op, HeapPlan>(
                    words, layout, seat, actor, &None, birth_at,
                );
                Answer::Ref(Name::unpack(birth, layout.goroutines))
            }
        }
    }
}
