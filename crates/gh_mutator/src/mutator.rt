//! The machine of a processor.

ghost use Rattle.std.specs.Prelude.{◌≡◌, ℕ, ◌*◌, ◌<◌, IfSome, IsTrue, None, Some, length, slice_index, true, false, is_some};
ghost use Rattle.gh_base.specs.declared.cell.Ask.TheVariants as ask;
ghost use Rattle.gh_base.specs.declared.cell.Cell.TheVariants as cell;
ghost use Rattle.gh_base.specs.declared.operation.Op.TheVariants as ops;
ghost use Rattle.gh_base.specs.declared.value.Answer.{Answer};
ghost use Rattle.gh_base.specs.declared.value.Answer.TheVariants as answers;
ghost use Rattle.gh_mutator.specs.AtOnce.{MadeAtOnce, object_in};
ghost use Rattle.gh_mutator.specs.Faults.{rested};
ghost use Rattle.gh_mutator.specs.Listing.{is_at_field, is_made_further, is_searching, is_waiting, search_goes_on};
ghost use Rattle.gh_base.specs.declared.layout.Layout.{Layout};
ghost use Rattle.gh_base.specs.Cells.{InRange, length_of};
ghost use Rattle.gh_base.specs.Steps.{cell_of, changed, request, target};
ghost use Rattle.gh_mutator.specs.Mutating.{acts, asks, begins, gives, goes, is_busy, is_direct, opening, passes, sets};
ghost use Rattle.gh_poll.specs.Barrier.{has_entries};
ghost use Rattle.gh_mutator.specs.Processor.{register_of, set_register};
ghost use Rattle.gh_poll.specs.Room.{room_in};
ghost use Rattle.gh_mutator.specs.Serving.{has_left_at, is_last, is_point, is_serving};
ghost use Rattle.gh_base.specs.Shapes.{ShapesFit};
ghost use Rattle.gh_poll.specs.Registers.{IsNear, IsRegister};
ghost use Rattle.gh_mutator.specs.Sound.{has_names, has_room, SoundMutating, SoundOp};
ghost use Rattle.gh_mutator.specs.Spending.{spent_of};

use crate::processor::Processor;
use gh_base::{Answer, Ask, Cell, Layout, Name, Op, Req, Shapes, Value};
use gh_words::Words;
use std::marker::Model;

/// A processor (Go's P with its mcache): it runs the statements of goroutines, one operation at a time.
///
/// An operation is begun by [`Mutator::begin`]; then the machine asks for one step after the other until
/// it gives the operation's answer. Polls, the ends of goroutines and its own leave are operations too,
/// which are answered `Done`.
#[derive(Drop)]
pub struct Mutator<'s> {
    shapes: &'s Shapes,
    processor: Processor<'s>,
    // How many statements it has answered.
    marks: u64,
}

impl<'s> Model for Mutator<'s> {
    ghost use Rattle.gh_mutator.specs.Mutating.{Mutating};
    ghost use Rattle.gh_base.specs.Shapes.{ShapesFit};

    ghost Value = { Mutating };

    ghost view = { λ m. record { shapes = m.shapes.now; processor = m.processor; marks = m.marks } };

    ghost invariant = { λ m. ShapesFit m.shapes.now };
}

impl<'s> Mutator<'s> {
    /// A processor at this seat, before its first step: all registers are nil, no span is cached, and
    /// nothing is begun. Each type has 1 to `MOST_TYPE_WORDS` words.
    pub fn new(seat: u32, shapes: &'s Shapes) -> Mutator<'s>
        requires shapes { ShapesFit shapes.now }
        ensures is { result ≡ opening seat shapes.now }
        ensures sound { (l : Layout) → seat < l.procs → SoundMutating l shapes.now result.processor }
    {
        Mutator {
            shapes,
            processor: Processor::opening(seat),
            marks: 0,
        }
    }

    /// Begins an operation, where none is begun. Its goroutine, registers, type and global are there, and a
    /// goroutine that is to make an object has made fewer than 200,000. While marking is on, as it knows, a store is
    /// begun where two entries go into the buffer that it holds: [`Mutator::has_room`] says so, and a poll sees to it.
    pub fn begin(&mut self, layout: &Layout, op: Op)
        requires sound { SoundMutating layout.now self.old.shapes self.old.processor }
        requires idle { is_busy self.old ≡ false }
        requires op { SoundOp self.old.shapes layout.now op }
        requires names { has_names self.old.processor op ≡ true }
        requires room { has_room self.old.processor op ≡ true }
        ensures begins { self.new ≡ begins self.old op }
        ensures sound { SoundMutating layout.now self.new.shapes self.new.processor }
    {
        self.processor.begin(layout, self.shapes, op);
    }

    /// Makes a poll at once, by the phase word that it finds, where that is all that the poll has to do: the world runs, and
    /// marking is off, as the processor knows. It answers whether that is so and the processor has not left; where not,
    /// nothing is begun.
    pub fn passes(&mut self, found: u64) -> bool
        requires idle { is_busy self.old ≡ false }
        ensures exactly { result ≡ passes self.old found }
        ensures passed { IsTrue result → (l : Layout) → self.new ≡ goes l (begins self.old ops.Poll) found }
        ensures sound { (l : Layout) → SoundMutating l self.old.shapes self.old.processor → SoundMutating l self.new.shapes self.new.processor }
        ensures stays { result ≡ false → self.new ≡ self.old }
    {
        self.processor.passes(found)
    }

    /// Makes a poll at once while marking is on, as it knows, where the poll is only counted: the world runs, no stack is to be
    /// scanned, and the buffer that it holds has room for the entries of a write barrier. It answers whether that is so and the processor
    /// has not left; where not, nothing is begun.
    // It stands apart: most polls find marking off.
    #[inline(never)]
    pub fn passes_marking(&mut self, layout: &Layout, found: u64) -> bool
        requires sound { SoundMutating layout.now self.old.shapes self.old.processor }
        requires idle { is_busy self.old ≡ false }
        ensures passed { IsTrue result → self.new ≡ goes layout.now (begins self.old ops.Poll) found }
        ensures sound { SoundMutating layout.now self.new.shapes self.new.processor }
        ensures stays { result ≡ false → self.new ≡ self.old }
    {
        self.processor.passes_marking(layout, found)
    }

    /// Makes a poll at once, by the phase word that it finds, where it passes ([`Mutator::passes`]) or is only counted
    /// ([`Mutator::passes_marking`]). It answers whether that is so; where not, nothing is begun.
    #[inline(always)]
    pub fn polls(&mut self, layout: &Layout, found: u64) -> bool
        requires sound { SoundMutating layout.now self.old.shapes self.old.processor }
        requires idle { is_busy self.old ≡ false }
        ensures passes { IsTrue (passes self.old found) → result ≡ true }
        ensures polled { IsTrue result → self.new ≡ goes layout.now (begins self.old ops.Poll) found }
        ensures sound { SoundMutating layout.now self.new.shapes self.new.processor }
        ensures stays { result ≡ false → self.new ≡ self.old }
    {
        if self.passes(found) {
            return true;
        }
        self.passes_marking(layout, found)
    }

    /// Makes a statement on registers alone at once: its one step is the same whatever it finds. It answers whether the
    /// operation is such a statement and the processor has not left; where not, nothing is begun.
    pub fn sets(&mut self, layout: &Layout, op: Op) -> bool
        requires sound { SoundMutating layout.now self.old.shapes self.old.processor }
        requires idle { is_busy self.old ≡ false }
        requires op { SoundOp self.old.shapes layout.now op }
        ensures exactly { result ≡ sets self.old op }
        ensures asks { IsTrue result → asks layout.now (begins self.old op) ≡ ask.Load cell.Touch }
        ensures made { IsTrue result → (found : ℕ) → MadeAtOnce layout.now (begins self.old op) found self.new true (Some answers.Done) }
        ensures sound { SoundMutating layout.now self.new.shapes self.new.processor }
        ensures stays { result ≡ false → self.new ≡ self.old }
    {
        let _ = layout;
        let (g, d, value) = match op {
            Op::Int { g, d, n } => (g, d, Value::Int(n)),
            Op::Move { g, d, s } => (g, d, self.processor.register(g, s)),
            Op::Nil { g, d } => (g, d, Value::Nil),
            _ => return false,
        };
        if self.processor.has_left() {
            return false;
        }
        self.processor.set_register(g, d, value);
        self.marks = self.marks.saturating_add(1);
        true
    }

    /// The first step of the load of a global, or of the store of a pointer into one while marking is off, as it knows:
    /// [`Mutator::directly`] makes it without a task. `None` exactly where the operation is no such one, or the processor has left.
    #[inline(always)]
    pub fn direct(&self, layout: &Layout, op: Op) -> Option<Ask>
        requires sound { SoundMutating layout.now self.now.shapes self.now.processor }
        requires idle { is_busy self.now ≡ false }
        requires op { SoundOp self.now.shapes layout.now op }
        ensures exactly { is_some result ≡ is_direct self.now op }
        ensures asks { IfSome result (λ a. asks layout.now (begins self.now op) ≡ a) }
        ensures within { IfSome result (λ a. InRange layout.now (cell_of a)) }
        ensures there { IfSome result (λ a. has_left_at self.now.processor.task ≡ false) }
        ensures busy { IfSome result (λ a. is_busy (begins self.now op) ≡ true) }
        ensures room { IfSome result (λ a. has_room self.now.processor op ≡ true) }
    {
        self.processor.direct(layout, self.shapes, op)
    }

    /// Begins that operation and makes its first step at once, which found this. It answers the operation where it ends with the
    /// step: only the load of a reference goes on, since the name of its object is loaded too.
    #[inline(always)]
    pub fn directly(&mut self, layout: &Layout, op: Op, found: u64) -> Option<Answer>
        requires sound { SoundMutating layout.now self.old.shapes self.old.processor }
        requires op { SoundOp self.old.shapes layout.now op }
        requires idle { is_busy self.old ≡ false }
        requires direct { is_direct self.old op ≡ true }
        ensures made { MadeAtOnce layout.now (begins self.old op) found self.new true result }
        ensures sound { SoundMutating layout.now self.new.shapes self.new.processor }
    {
        let answer = self.processor.directly(layout, self.shapes, op, found);
        if answer.is_some() {
            self.marks = self.marks.saturating_add(1);
        }
        answer
    }

    /// The first heap word of the object that register `b` of goroutine `g` names; `None` exactly where it holds no reference.
    #[inline(always)]
    pub fn object(&self, layout: &Layout, g: u32, b: u32) -> Option<u32>
        requires sound { SoundMutating layout.now self.now.shapes self.now.processor }
        requires register { IsRegister g b }
        ensures is { result ≡ object_in (register_of self.now.processor g b) }
        ensures within { IfSome result (λ at. at < 1024 * layout.now.pages) }
    {
        let _ = layout;
        match self.processor.register(g, b) {
            Value::Ref(reference) => Some(reference.saturating_sub(1) as u32),
            _ => None,
        }
    }

    /// Ends a load whose steps were made without a task: register `d` of goroutine `g` takes the value that was found, and one
    /// statement more is answered. So the processor is where the task would have led it.
    ///
    /// A load has three or four steps, and each would go through all that a processor may be at. So who makes these itself
    /// ([`crate::field`] says on which words) takes a tenth of the time.
    #[inline(always)]
    pub fn loaded(&mut self, layout: &Layout, g: u32, d: u32, found: Value)
        requires sound { SoundMutating layout.now self.old.shapes self.old.processor }
        requires idle { is_busy self.old ≡ false }
        requires there { has_left_at self.old.processor.task ≡ false }
        requires register { IsRegister g d }
        requires near { IsNear layout.now.pages found }
        ensures is { (answer : Answer) → self.new ≡ rested self.old (set_register self.old.processor g d found) answer }
        ensures sound { SoundMutating layout.now self.new.shapes self.new.processor }
    {
        let _ = layout;
        self.processor.set_register(g, d, found);
        self.marks = self.marks.saturating_add(1);
    }

    /// Ends a load that is answered a fault, whose steps were made without a task: one statement more is answered.
    #[inline(always)]
    pub fn refused(&mut self)
        requires idle { is_busy self.old ≡ false }
        requires there { has_left_at self.old.processor.task ≡ false }
        ensures is { (answer : Answer) → self.new ≡ rested self.old self.old.processor answer }
        ensures sound { (l : Layout) → SoundMutating l self.old.shapes self.old.processor → SoundMutating l self.new.shapes self.new.processor }
    {
        self.marks = self.marks.saturating_add(1);
    }

    /// An operation is begun, and a step is to be made.
    pub fn is_busy(&self) -> bool
        ensures { result ≡ is_busy self.now }
    {
        self.processor.is_busy()
    }

    /// A store may be begun: marking is off, as it knows, or there is room for the entries of a write barrier.
    pub fn has_room(&self) -> bool
        ensures { result ≡ has_entries self.now.processor.poll }
    {
        self.processor.has_entries()
    }

    /// How many entries more it has room for, as it knows: while marking is on, those of the work buffer that it holds, and 0
    /// where it holds none; while marking is off, 253.
    pub fn room(&self) -> u32
        ensures { result ≡ room_in self.now.processor.poll }
    {
        self.processor.room()
    }

    /// It has left.
    pub fn has_left(&self) -> bool
        ensures { result ≡ has_left_at self.now.processor.task }
    {
        self.processor.has_left()
    }

    /// Its next step is its last: it leaves.
    pub fn is_last(&self) -> bool
        ensures { result ≡ is_last self.now.processor.task }
    {
        self.processor.is_last()
    }

    /// It runs a statement of a goroutine, and no operation of its own.
    pub fn is_serving(&self) -> bool
        ensures { result ≡ is_serving self.now.processor.task }
    {
        self.processor.is_serving()
    }

    /// The step that finds this is the point of a statement.
    pub fn is_point(&self, layout: &Layout, found: u64) -> bool
        requires { SoundMutating layout.now self.now.shapes self.now.processor }
        ensures { result ≡ is_point (acts layout.now self.now found) }
    {
        self.processor.is_point(layout, self.shapes, found)
    }

    /// It makes an object, and searches for its slot: [`Mutator::goes_on`] may make its next step.
    #[inline(always)]
    pub fn is_searching(&self) -> bool
        ensures { result ≡ is_searching self.now.processor.task }
    {
        self.processor.is_searching()
    }

    /// The cell that its next step loads, where it searches for the slot of an object and looks at a slot, a span or a page:
    /// [`Mutator::goes_on`] or [`Mutator::finds`] may make that step.
    #[inline(always)]
    pub fn seeks(&self, layout: &Layout) -> Option<Cell>
        requires sound { SoundMutating layout.now self.now.shapes self.now.processor }
        ensures asks { IfSome result (λ c. asks layout.now self.now ≡ ask.Load c) }
        ensures within { IfSome result (InRange layout.now) }
        ensures busy { IfSome result (λ c. is_busy self.now ≡ true) }
    {
        self.processor.seeks(layout, self.shapes)
    }

    /// Makes the step that found this at once, where by it the search of a `new`, in its first round, goes on to the next slot of
    /// the cached span, to the next alloc word of a span or to a further page, and answers whether that is so; where not, nothing
    /// has changed, and [`Mutator::take`] makes the step. Such a step answers nothing and is the point of no statement.
    ///
    /// Most steps of a search are such. Each changes a number or two of the search, where `take` goes
    /// through all that a processor may be at.
    #[inline(always)]
    pub fn goes_on(&mut self, layout: &Layout, found: u64) -> bool
        requires sound { SoundMutating layout.now self.old.shapes self.old.processor }
        ensures exactly { result ≡ search_goes_on layout.now self.old.processor.task found }
        ensures made { IsTrue result → MadeAtOnce layout.now self.old found self.new false None }
        ensures sound { SoundMutating layout.now self.new.shapes self.new.processor }
        ensures stays { result ≡ false → self.new ≡ self.old }
    {
        self.processor.goes_on(layout, self.shapes, found)
    }

    /// Makes the step that found this at once, where by it the search of a `new`, in its first round, ends with the slot at the
    /// cursor of the cached span, and answers whether that is so: the object is made there next. Where not, nothing has changed,
    /// and [`Mutator::take`] makes the step. Such a step answers nothing and is the point of no statement.
    #[inline(always)]
    pub fn finds(&mut self, layout: &Layout, found: u64) -> bool
        requires sound { SoundMutating layout.now self.old.shapes self.old.processor }
        ensures made { IsTrue result → MadeAtOnce layout.now self.old found self.new false None }
        ensures sound { SoundMutating layout.now self.new.shapes self.new.processor }
        ensures stays { result ≡ false → self.new ≡ self.old }
    {
        self.processor.finds(layout, self.shapes, found)
    }

    /// It waits in a `gc`: [`Mutator::waits`] may make its next step.
    #[inline(always)]
    pub fn is_waiting(&self) -> bool
        ensures { result ≡ is_waiting self.now.processor.task }
    {
        self.processor.is_waiting()
    }

    /// The cell that its next step loads, where it waits in a `gc` for the cycle, or for the end of a stop.
    #[inline(always)]
    pub fn looks(&self) -> Option<Cell>
        ensures asks { IfSome result (λ c. (l : Layout) → asks l self.now ≡ ask.Load c) }
        ensures within { IfSome result (λ c. (l : Layout) → InRange l c) }
        ensures busy { IfSome result (λ c. is_busy self.now ≡ true) }
    {
        self.processor.looks()
    }

    /// Makes the step that found this at once, where by it the wait of a `gc` goes on with a number or two changed, and answers
    /// whether that is so; where not, nothing has changed, and [`Mutator::take`] makes the step. Such a step answers nothing and is
    /// the point of no statement.
    ///
    /// Where there are many processors most of their steps are such.
    #[inline(always)]
    pub fn waits(&mut self, layout: &Layout, found: u64) -> bool
        requires sound { SoundMutating layout.now self.old.shapes self.old.processor }
        ensures made { IsTrue result → MadeAtOnce layout.now self.old found self.new false None }
        ensures sound { SoundMutating layout.now self.new.shapes self.new.processor }
        ensures stays { result ≡ false → self.new ≡ self.old }
    {
        self.processor.waits(layout, found)
    }

    /// It makes an object in its slot, and its next step neither gives a span back nor is the last: [`Mutator::make_on`] may make
    /// it.
    #[inline(always)]
    pub fn goes_further(&self) -> bool
        ensures { result ≡ is_made_further self.now.processor.task }
    {
        self.processor.goes_further()
    }

    /// Makes such a step on these words, and answers whether it makes the object, which is the point of the statement. No such step
    /// answers a statement.
    ///
    /// Where spans have room most steps of a `new` are such. `next` and `take` go through all that a processor may be at.
    #[inline(always)]
    pub fn make_on<W: Words>(&mut self, layout: &Layout, words: &mut W) -> bool
        requires sound { SoundMutating layout.now self.old.shapes self.old.processor }
        requires further { is_made_further self.old.processor.task ≡ true }
        requires long { length (W.list words.old) ≡ length_of layout.now }
        ensures words { W.list words.new ≡ changed (request layout.now (asks layout.now self.old)) (W.list words.old) }
        ensures within { InRange layout.now (cell_of (asks layout.now self.old)) }
        ensures made { let found = slice_index (W.list words.old) (target (request layout.now (asks layout.now self.old))) in
            MadeAtOnce layout.now self.old found self.new result None }
        ensures busy { is_busy self.old ≡ true }
        ensures sound { SoundMutating layout.now self.new.shapes self.new.processor }
    {
        self.processor.make_on(layout, self.shapes, words)
    }

    /// It makes an object in its slot, and loads the trigger next: [`Mutator::ends_by`] may make its next step.
    #[inline(always)]
    pub fn is_at_trigger(&self) -> bool
        ensures asks { IsTrue result → (l : Layout) → asks l self.now ≡ ask.Load cell.Trigger }
        ensures busy { IsTrue result → is_busy self.now ≡ true }
    {
        self.processor.is_at_trigger()
    }

    /// Makes the step that found this at once, where by it a `new` that loads the trigger ends, and answers the name of its object
    /// then: the heap's bytes are below the trigger, and marking is off. Where not, nothing has changed, and [`Mutator::take`] makes
    /// the step. Such a step is the point of no statement.
    #[inline(always)]
    pub fn ends_by(&mut self, layout: &Layout, found: u64) -> Option<Name>
        requires sound { SoundMutating layout.now self.old.shapes self.old.processor }
        ensures made { IfSome result (λ name. MadeAtOnce layout.now self.old found self.new false (Some (answers.Ref name))) }
        ensures sound { SoundMutating layout.now self.new.shapes self.new.processor }
        ensures stays { result ≡ None → self.new ≡ self.old }
    {
        let name = self.processor.ends_by(layout, self.shapes, found);
        if name.is_some() {
            self.marks = self.marks.saturating_add(1);
        }
        name
    }

    /// The cell that its next step loads, where it loads the name of an object to which a global referred: [`Mutator::names`] may make
    /// that step.
    #[inline(always)]
    pub fn names_at(&self, layout: &Layout) -> Option<Cell>
        ensures asks { IfSome result (λ c. asks layout.now self.now ≡ ask.Load c) }
        ensures within { IfSome result (InRange layout.now) }
        ensures busy { IfSome result (λ c. is_busy self.now ≡ true) }
    {
        self.processor.names_at(layout)
    }

    /// Makes the step that found this at once, where by it the load of a global ends with the name of an object, and answers the
    /// load then. Where not, nothing has changed, and [`Mutator::take`] makes the step. Such a step is the point of no statement.
    #[inline(always)]
    pub fn names(&mut self, layout: &Layout, found: u64) -> Option<Answer>
        requires sound { SoundMutating layout.now self.old.shapes self.old.processor }
        ensures made { IfSome result (λ a. MadeAtOnce layout.now self.old found self.new false (Some a)) }
        ensures sound { SoundMutating layout.now self.new.shapes self.new.processor }
        ensures stays { result ≡ None → self.new ≡ self.old }
    {
        let answer = self.processor.names(layout, self.shapes, found);
        if answer.is_some() {
            self.marks = self.marks.saturating_add(1);
        }
        answer
    }

    /// It loads or stores a field: [`Mutator::reads`] may make its next step.
    #[inline(always)]
    pub fn is_at_field(&self) -> bool
        ensures { result ≡ is_at_field self.now.processor.task }
    {
        self.processor.is_at_field()
    }

    /// The cell that its next step loads, where it loads or stores a field and looks at the page word of the object or at the word of
    /// the bitmap: [`Mutator::reads`] may make that step.
    #[inline(always)]
    pub fn reads_at(&self, layout: &Layout) -> Option<Cell>
        requires sound { SoundMutating layout.now self.now.shapes self.now.processor }
        ensures asks { IfSome result (λ c. asks layout.now self.now ≡ ask.Load c) }
        ensures within { IfSome result (InRange layout.now) }
        ensures busy { IfSome result (λ c. is_busy self.now ≡ true) }
    {
        self.processor.reads_at(layout, self.shapes)
    }

    /// Makes the step that found this at once, where by it the load or the store of a field goes on to the word of the bitmap, or to the
    /// field without a write barrier, and answers whether that is so; where not, nothing has changed, and [`Mutator::take`] makes the
    /// step. Such a step answers nothing and is the point of no statement.
    #[inline(always)]
    pub fn reads(&mut self, layout: &Layout, found: u64) -> bool
        requires sound { SoundMutating layout.now self.old.shapes self.old.processor }
        ensures made { IsTrue result → MadeAtOnce layout.now self.old found self.new false None }
        ensures sound { SoundMutating layout.now self.new.shapes self.new.processor }
        ensures stays { result ≡ false → self.new ≡ self.old }
    {
        self.processor.reads(layout, self.shapes, found)
    }

    /// The words that it has drawn from the bank of credit. The number stands at `u64::MAX`, which no run reaches.
    pub fn spent(&self) -> u64
        ensures { result ≡ spent_of self.now.processor }
    {
        self.processor.spent()
    }

    /// How many statements it has answered; polls, ends and its leave are none. The number stands at
    /// `u64::MAX`, which no run reaches.
    pub fn marks(&self) -> u64
        ensures { result ≡ self.now.marks }
    {
        self.marks
    }

    // Its steps are those of a routine, save that its answers are kept nowhere: what it has given cannot be read off it.

    /// The step that it asks for, on a word of the layout.
    pub fn next(&self, layout: &Layout) -> Req
        requires sound { SoundMutating layout.now self.now.shapes self.now.processor }
        requires busy { is_busy self.now ≡ true }
        ensures same { result ≡ request layout.now (asks layout.now self.now) }
        ensures within { InRange layout.now (cell_of (asks layout.now self.now)) }
    {
        self.processor.next(layout, self.shapes)
    }

    /// Tells it what that step found, which may be any word. It answers the operation that ends with the step: `None` where it
    /// asks for a further one.
    pub fn take(&mut self, layout: &Layout, found: u64) -> Option<Answer>
        requires sound { SoundMutating layout.now self.old.shapes self.old.processor }
        requires busy { is_busy self.old ≡ true }
        ensures state { self.new ≡ goes layout.now self.old found }
        ensures out { result ≡ gives layout.now self.old found }
        ensures sound { SoundMutating layout.now self.new.shapes self.new.processor }
    {
        let is_serving = self.processor.is_serving();
        let answer = self.processor.take(layout, self.shapes, found);
        if is_serving && answer.is_some() {
            self.marks = self.marks.saturating_add(1);
        }
        answer
    }
}
