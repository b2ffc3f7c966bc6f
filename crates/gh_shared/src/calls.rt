//! What a processor is asked to do.
//!
//! A call begins one operation and runs it to its end. What it asks of its caller can be read off the handle; what it has done
//! is said by the entries that its actor has then.
//!
//! A store asks for room for two entries, and a poll makes it. Each call but a poll, a new object and a collection says what it leaves
//! of the room: a store at most two entries less, and the others as much as there was.

ghost use Rattle.std.specs.Prelude.{◌≡◌, ◌+◌, ◌<◌, ◌≤◌, ℕ, List, length, true, false};
ghost use Rattle.gh_base.specs.declared.limits.TheConstants.{REGISTERS};
ghost use Rattle.gh_base.specs.declared.operation.Op.TheVariants as ops;
ghost use Rattle.gh_base.specs.declared.value.Answer.{Answer};
ghost use Rattle.gh_base.specs.declared.value.Answer.TheVariants.{Done, Swept};
ghost use Rattle.gh_base.specs.Routines.{EndsWithin};
ghost use Rattle.gh_shared.specs.Answers.{IsDoneOrFault, IsDoneOrKind, IsNameOrFull, IsNilOrName, IsValueOrNoField};
ghost use Rattle.gh_shared.specs.Calls.{IsGoing, May, Operated, OperatedWithin};
ghost use Rattle.gh_shared.specs.Faults.{FaultLeavesAll};
ghost use Rattle.gh_shared.specs.Handles.{left_of, plan_of, room_of, runs_in};
ghost use Rattle.gh_actor.specs.Acting.{begins, listing};

use crate::handle::Handle;
use crate::heap::Heap;
use gh_actor::AnyActor;
use gh_base::laws::a_state_is_of_its_own_entries;
use gh_base::{Answer, Op};
use gh_mutator::laws::polls_make_room;
use gh_mutator_writes::laws::{faults_change_nothing, operations_end};
use std::sync::Wait;

impl Heap {
    /// Register `d` takes field `k` of the object in `b`. At most 4 steps.
    ///
    /// The field is what the last step left that wrote its word before, this actor's or another's ([`crate::reads_see_writes`]).
    /// A fault changes no word and no register: `NilBase` where `b` holds no reference, `Field` where the slot has no field `k`.
    pub fn load<'s>(&self, h: &mut Handle<'s>, g: u32, d: u32, b: u32, k: u32) -> Answer
        requires going { IsGoing self.now h.old }
        requires runs { runs_in h.old g ≡ true }
        requires registers { (d < REGISTERS) × (b < REGISTERS) }
        ensures did { OperatedWithin self.now (ops.Load g d b k) 4 h.old h.new result }
        ensures fault { FaultLeavesAll h.old h.new result }
        ensures room { room_of h.new ≡ room_of h.old }
        ensures answer { IsValueOrNoField result }
    {
        faults_change_nothing();
        a_state_is_of_its_own_entries::<AnyActor, Op>();
        let hand = &mut h.hand;
        self.load_at_once(hand.actor, &mut hand.machine, &mut hand.seat, g, d, b, k)
    }

    /// Field `k` of the object in `b` takes what register `v` holds. At most 10 steps.
    ///
    /// A fault changes no word and no register: `NilBase` where `b` holds no reference, `Field` where the slot has no field `k`, and
    /// `Kind` where a pointer field meets a number, or a number field nil or a reference.
    pub fn store<'s>(&self, h: &mut Handle<'s>, g: u32, b: u32, k: u32, v: u32) -> Answer
        requires going { IsGoing self.now h.old }
        requires runs { runs_in h.old g ≡ true }
        requires registers { (b < REGISTERS) × (v < REGISTERS) }
        requires room { 2 ≤ room_of h.old }
        ensures did { OperatedWithin self.now (ops.Store g b k v) 10 h.old h.new result }
        ensures fault { FaultLeavesAll h.old h.new result }
        ensures room { room_of h.old ≤ room_of h.new + 2 }
        ensures answer { IsDoneOrFault result }
    {
        faults_change_nothing();
        operations_end();
        self.operate(h, Op::Store { g, b, k, v }, 10)
    }

    /// Register `d` takes global `k`. At most 2 steps.
    pub fn get_global<'s>(&self, h: &mut Handle<'s>, g: u32, d: u32, k: u32) -> Answer
        requires going { IsGoing self.now h.old }
        requires runs { runs_in h.old g ≡ true }
        requires registers { d < REGISTERS }
        requires global { k < (plan_of self.now).layout.globals }
        ensures did { OperatedWithin self.now (ops.GetGlobal g d k) 2 h.old h.new result }
        ensures room { room_of h.new ≡ room_of h.old }
        ensures answer { IsNilOrName result }
    {
        operations_end();
        self.operate(h, Op::GetGlobal { g, d, k }, 2)
    }

    /// Global `k` takes what register `v` holds. At most 8 steps.
    ///
    /// A fault changes no word and no register: `Kind` where `v` holds a number.
    pub fn set_global<'s>(&self, h: &mut Handle<'s>, g: u32, k: u32, v: u32) -> Answer
        requires going { IsGoing self.now h.old }
        requires runs { runs_in h.old g ≡ true }
        requires registers { v < REGISTERS }
        requires global { k < (plan_of self.now).layout.globals }
        requires room { 2 ≤ room_of h.old }
        ensures did { OperatedWithin self.now (ops.SetGlobal g k v) 8 h.old h.new result }
        ensures fault { FaultLeavesAll h.old h.new result }
        ensures room { room_of h.old ≤ room_of h.new + 2 }
        ensures answer { IsDoneOrKind result }
    {
        faults_change_nothing();
        operations_end();
        self.operate(h, Op::SetGlobal { g, k, v }, 8)
    }

    /// Register `d` takes what register `s` holds. One step.
    pub fn move_reg<'s>(&self, h: &mut Handle<'s>, g: u32, d: u32, s: u32) -> Answer
        requires going { IsGoing self.now h.old }
        requires runs { runs_in h.old g ≡ true }
        requires registers { (d < REGISTERS) × (s < REGISTERS) }
        ensures did { OperatedWithin self.now (ops.Move g d s) 1 h.old h.new result }
        ensures room { room_of h.new ≡ room_of h.old }
        ensures answer { result ≡ Done }
    {
        operations_end();
        self.operate(h, Op::Move { g, d, s }, 1)
    }

    /// Register `d` takes the number `n`. One step.
    pub fn int<'s>(&self, h: &mut Handle<'s>, g: u32, d: u32, n: u64) -> Answer
        requires going { IsGoing self.now h.old }
        requires runs { runs_in h.old g ≡ true }
        requires registers { d < REGISTERS }
        ensures did { OperatedWithin self.now (ops.Int g d n) 1 h.old h.new result }
        ensures room { room_of h.new ≡ room_of h.old }
        ensures answer { result ≡ Done }
    {
        operations_end();
        self.operate(h, Op::Int { g, d, n }, 1)
    }

    /// Register `d` takes nil. One step.
    pub fn nil<'s>(&self, h: &mut Handle<'s>, g: u32, d: u32) -> Answer
        requires going { IsGoing self.now h.old }
        requires runs { runs_in h.old g ≡ true }
        requires registers { d < REGISTERS }
        ensures did { OperatedWithin self.now (ops.Nil g d) 1 h.old h.new result }
        ensures room { room_of h.new ≡ room_of h.old }
        ensures answer { result ≡ Done }
    {
        operations_end();
        self.operate(h, Op::Nil { g, d }, 1)
    }

    /// Goroutine `g` ends, and its registers are nil. One step.
    pub fn finish<'s>(&self, h: &mut Handle<'s>, g: u32) -> Answer
        requires going { IsGoing self.now h.old }
        requires runs { runs_in h.old g ≡ true }
        ensures did { OperatedWithin self.now (ops.End g) 1 h.old h.new result }
        ensures room { room_of h.new ≡ room_of h.old }
        ensures answer { result ≡ Done }
    {
        operations_end();
        self.operate(h, Op::End(g), 1)
    }

    /// Register `d` names a new object of type `t`. It may sweep spans, and wait for another's sweep or for a cycle.
    pub fn new_object<'s, R: Wait>(
        &self,
        rt: &R,
        h: &mut Handle<'s>,
        g: u32,
        d: u32,
        t: u32,
    ) -> Answer
        requires going { IsGoing self.now h.old }
        requires runs { runs_in h.old g ≡ true }
        requires register { d < REGISTERS }
        requires of_type { t < length (plan_of self.now).script.shapes }
        requires left { 1 ≤ left_of h.old g }
        ensures did { (founds : List ℕ) × Operated self.now (ops.New g d t) h.old h.new result founds }
        ensures answer { IsNameOrFull result }
    {
        self.operate_on(rt, h, Op::New { g, d, t })
    }

    /// Asks for a cycle, and waits until one that began behind that is swept.
    pub fn collect<'s, R: Wait>(&self, rt: &R, h: &mut Handle<'s>, g: u32) -> Answer
        requires going { IsGoing self.now h.old }
        requires runs { runs_in h.old g ≡ true }
        requires left { 1 ≤ left_of h.old g }
        ensures did { (founds : List ℕ) × Operated self.now (ops.Gc g) h.old h.new result founds }
        ensures answer { result ≡ Swept }
    {
        self.operate_on(rt, h, Op::Gc { g })
    }

    /// Polls: the processor stops where the world is stopped, and afterwards a store has room.
    pub fn poll<'s, R: Wait>(&self, rt: &R, h: &mut Handle<'s>)
        requires { IsGoing self.now h.old }
        ensures polled { (answer : Answer) × (founds : List ℕ) × Operated self.now ops.Poll h.old h.new answer founds }
        ensures room { 2 ≤ room_of h.new }
    {
        polls_make_room();
        self.operate_on(rt, h, Op::Poll);
    }

    /// The processor leaves, once none of its goroutines is left.
    pub fn leave<'s, R: Wait>(&self, rt: &R, h: &mut Handle<'s>)
        requires going { IsGoing self.now h.old }
        requires none { (g : ℕ) → runs_in h.old g ≡ false }
        ensures { (answer : Answer) × (founds : List ℕ) × Operated self.now ops.Leave h.old h.new answer founds }
    {
        self.operate_on(rt, h, Op::Leave);
    }

    /// An operation of a processor, which ends within `most` steps whatever they find.
    fn operate<'s>(&self, h: &mut Handle<'s>, op: Op, most: u32) -> Answer
        requires may { May self.now h.old op }
        requires some { 0 < most }
        requires ends { (found : ℕ → ℕ) → EndsWithin listing most (begins h.old.hand.machine op) found }
        ensures { OperatedWithin self.now op most h.old h.new result }
    {
        a_state_is_of_its_own_entries::<AnyActor, Op>();
        let out = h.hand.operate(&self.table.shared, &self.layout, op, most);
        h.counts.note(op);
        match out {
            Some(answer) => answer,
            None => unreachable!(),
        }
    }

    /// An operation of a processor, which may wait for others.
    fn operate_on<'s, R: Wait>(&self, rt: &R, h: &mut Handle<'s>, op: Op) -> Answer
        requires { May self.now h.old op }
        ensures { (founds : List ℕ) × Operated self.now op h.old h.new result founds }
    {
        a_state_is_of_its_own_entries::<AnyActor, Op>();
        let out = h.hand.operate_on(rt, &self.table.shared, &self.layout, op);
        h.counts.note(op);
        match out {
            Some(answer) => answer,
            None => unreachable!(),
        }
    }
}
