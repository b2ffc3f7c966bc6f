//! The steps of a processor: what its task asks for, where it goes by what was found, what it then
//! answers, and where a statement acts. A statement says so in its own file; here it is applied.

ghost use Rattle.std.specs.Prelude.{◌≡◌, ◌<◌, ℕ, length, slice_index, true, false, IfSome, IsTrue, List, None, Some};
ghost use Rattle.gh_base.specs.declared.layout.Layout.{Layout};
ghost use Rattle.gh_base.specs.declared.shape.Shape.{Shape};
ghost use Rattle.gh_base.specs.declared.limits.TheConstants.{MOST_GOROUTINES};
ghost use Rattle.gh_base.specs.Cells.{InRange, length_of};
ghost use Rattle.gh_base.specs.Steps.{cell_of, changed, request, target};
ghost use Rattle.gh_base.specs.declared.value.Answer.TheVariants.{Done, Ref, Swept};
ghost use Rattle.gh_mutator.specs.Listing.{acts, after_gc, after_poll, applied, asks, gives, is_at_field, is_busy_at, is_made_further, is_searching, is_waiting, once_ended, search_goes_on, takes};
ghost use Rattle.gh_mutator.specs.Load as load;
ghost use Rattle.gh_poll.specs.Local.{with_ended};
ghost use Rattle.gh_poll.specs.Poll as polls;
ghost use Rattle.gh_mutator.specs.Processor.{at_poll, at_task, register_of};
ghost use Rattle.gh_mutator.specs.Register as register;
ghost use Rattle.gh_mutator.specs.Serving.{has_left_at, is_last, is_point, is_serving, statement_answer};
ghost use Rattle.gh_mutator.specs.Tasks.{is_large};
ghost use Rattle.gh_poll.specs.Registers.{IsRegister};
ghost use Rattle.gh_mutator.specs.Sound.{Sound, SoundLoad, SoundRegister};
ghost use Rattle.gh_mutator.specs.Step.{answered};
ghost use Rattle.gh_poll.specs.Wait as waits;
ghost use Rattle.gh_poll.specs.PollSound.{SoundPolling};
ghost use Rattle.gh_poll.specs.WaitSound.{SoundWaiting};
ghost use Rattle.gh_mutator.specs.declared.task.Task.TheVariants as task;

use crate::load::Load;
use crate::new::NewStage;
use crate::processor::Processor;
use crate::register::Register;
use crate::step::{Step, Then};
use crate::task::{LargeTask, Statement, TaskAt};
use gh_alloc::laws::searching_is_a_routine;
use gh_barrier::laws::writing_is_a_routine;
use gh_base::{Answer, Ask, Cell, END, Layout, Name, Req, Routine, Shapes, Value};
use gh_class::size_class_laws;
use gh_poll::Wait;
use gh_poll::laws::leaving_is_a_routine;
use gh_words::Words;

impl<'s> Processor<'s> {
    /// The step that it asks for.
    pub(crate) fn next(&self, layout: &Layout, shapes: &Shapes) -> Req
        requires polls { SoundPolling layout.now self.now.poll }
        requires sound { Sound layout.now shapes.now self.now }
        requires busy { is_busy_at self.now.task ≡ true }
        ensures same { result ≡ request layout.now (asks layout.now self.now) }
        ensures within { InRange layout.now (cell_of (asks layout.now self.now)) }
    {
        let ask = match &self.at {
            TaskAt::Idle | TaskAt::Left | TaskAt::Register(_) => Ask::Load(Cell::Touch),
            TaskAt::Load(load) => load.ask(layout),
            TaskAt::Direct(x) => x.ask(layout, self.poll.register(x.g, x.r)),
            TaskAt::Gc(_, wait) => return wait.next(layout, &self.poll),
            TaskAt::Poll => return self.poll.next(layout),
            TaskAt::End(g) => Ask::Store(Cell::Scanned(*g), END),
            TaskAt::Large => match &self.large {
                LargeTask::Store(x) => return x.next(
                    layout,
                    &self.poll,
                    self.poll.register(x.g, x.v),
                ),
                LargeTask::Write(x) => return x.write.next(layout),
                LargeTask::New(new) => match &new.stage {
                    NewStage::Search { search, .. } => return search.next(layout),
                    NewStage::Wait(wait) => return wait.next(layout, &self.poll),
                    NewStage::Place(place) => return place.next(layout),
                    NewStage::Want(_) => Ask::Or(Cell::Want, 1),
                    NewStage::Assist(_, assist) => return assist.next(layout),
                },
                LargeTask::Leave(leave) => return leave.next(layout),
            },
        };
        layout.request(ask)
    }

    /// A statement's step is made: its register takes a value, if any, and the statement goes on or ends.
    pub(crate) fn apply<S: Statement<'s>>(
        &mut self,
        g: u32,
        d: u32,
        step: Step<S>,
    ) -> Option<Answer>
        requires stacks { length self.old.poll.local.stacks ≡ MOST_GOROUTINES }
        requires there { IsRegister g d }
        ensures goes { self.new ≡ applied S.as_task self.old g d step }
        ensures gives { result ≡ answered step.then }
    {
        if let Some(value) = step.sets {
            self.poll.set_register(g, d, value);
        }
        match step.then {
            Then::GoesOn(next) => {
                next.put(&mut self.at, &mut self.large);
                None
            }
            Then::Ends(answer) => {
                self.at = TaskAt::Idle;
                Some(answer)
            }
        }
    }

    /// Goes on by what its step found, and answers the operation that ends with it, if one does.
    pub(crate) fn take(&mut self, layout: &Layout, shapes: &'s Shapes, found: u64) -> Option<Answer>
        requires polls { SoundPolling layout.now self.old.poll }
        requires sound { Sound layout.now shapes.now self.old }
        requires busy { is_busy_at self.old.task ≡ true }
        ensures goes { self.new ≡ takes layout.now shapes.now self.old found }
        ensures gives { result ≡ gives layout.now self.old found }
        ensures polls { SoundPolling layout.now self.new.poll }
        ensures sound { Sound layout.now shapes.now self.new }
    {
        size_class_laws();
        writing_is_a_routine();
        leaving_is_a_routine();
        match self.at {
            TaskAt::Idle | TaskAt::Left => None,
            TaskAt::Load(x) => self.take_load(layout, x, found),
            TaskAt::Direct(x) => self.take_direct(layout, x, found),
            TaskAt::Register(x) => self.take_register(layout, x),
            TaskAt::Gc(g, wait) => self.take_gc(layout, g, wait, found),
            TaskAt::Poll => self.take_poll(layout, found),
            TaskAt::End(g) => self.take_end(layout, g),
            TaskAt::Large => self.take_large(layout, shapes, found),
        }
    }

    // A function for each kind of statement: the step that it makes in memory is then no part of the others.

    /// Goes on with the large task that is kept, which is changed where it stands.
    #[inline(always)]
    fn take_large(&mut self, layout: &Layout, shapes: &'s Shapes, found: u64) -> Option<Answer>
        requires polls { SoundPolling layout.now self.old.poll }
        requires sound { Sound layout.now shapes.now self.old }
        requires large { is_large self.old.task ≡ true }
        ensures goes { self.new ≡ takes layout.now shapes.now self.old found }
        ensures gives { result ≡ gives layout.now self.old found }
        ensures polls { SoundPolling layout.now self.new.poll }
        ensures sound { Sound layout.now shapes.now self.new }
    {
        size_class_laws();
        writing_is_a_routine();
        leaving_is_a_routine();
        match &mut self.large {
            LargeTask::Store(x) => {
                let x = *x;
                self.take_store(layout, &x, found)
            }
            LargeTask::Write(x) => {
                self.poll.take_write(layout, &mut x.write, found)?;
                self.at = TaskAt::Idle;
                Some(Answer::Done)
            }
            LargeTask::New(_) => self.take_new(layout, shapes, found),
            LargeTask::Leave(leave) => {
                leave.take(layout, found)?;
                self.at = TaskAt::Left;
                Some(Answer::Done)
            }
        }
    }

    /// Goes on with this load.
    fn take_load(&mut self, layout: &Layout, x: Load, found: u64) -> Option<Answer>
        requires polls { SoundPolling layout.now self.old.poll }
        requires sound { SoundLoad layout.now.pages x }
        ensures goes { self.new ≡ applied task.Load self.old x.g x.d (load.step layout.now x found) }
        ensures gives { result ≡ answered (load.step layout.now x found).then }
        ensures polls { SoundPolling layout.now self.new.poll }
    {
        let step = x.step(layout, found);
        self.apply(x.g, x.d, step)
    }

    /// Makes this statement on registers.
    fn take_register(&mut self, layout: &Layout, x: Register) -> Option<Answer>
        requires polls { SoundPolling layout.now self.old.poll }
        requires sound { SoundRegister x }
        ensures goes { self.new ≡ applied task.Register self.old x.g x.d (register.step (register_of self.old x.g (register.read_of x)) x) }
        ensures gives { result ≡ answered (register.step (register_of self.old x.g (register.read_of x)) x).then }
        ensures polls { SoundPolling layout.now self.new.poll }
    {
        let _ = layout;
        let step = x.step(self.poll.register(x.g, x.read()));
        self.apply(x.g, x.d, step)
    }

    /// Goes on with this wait of a `gc` of goroutine `g`.
    fn take_gc(&mut self, layout: &Layout, g: u32, wait: Wait, found: u64) -> Option<Answer>
        requires polls { SoundPolling layout.now self.old.poll }
        requires sound { SoundWaiting self.old.poll wait }
        ensures goes { self.new ≡ after_gc self.old g (waits.goes layout.now (waits.waiting wait self.old.poll) found) (waits.gives layout.now (waits.waiting wait self.old.poll) found) }
        ensures gives { result ≡ once_ended (waits.gives layout.now (waits.waiting wait self.old.poll) found) Swept }
        ensures polls { SoundPolling layout.now self.new.poll }
    {
        let mut wait = wait;
        match wait.take(layout, &mut self.poll, found) {
            None => {
                self.at = TaskAt::Gc(g, wait);
                None
            }
            Some(()) => {
                self.at = TaskAt::Idle;
                Some(Answer::Swept)
            }
        }
    }

    /// Goes on with the poll.
    fn take_poll(&mut self, layout: &Layout, found: u64) -> Option<Answer>
        requires polls { SoundPolling layout.now self.old.poll }
        requires task { self.old.task ≡ task.Poll }
        requires busy { polls.is_busy self.old.poll.stage ≡ true }
        ensures goes { self.new ≡ after_poll self.old (polls.goes layout.now self.old.poll found) (polls.gives layout.now self.old.poll found) }
        ensures gives { result ≡ once_ended (polls.gives layout.now self.old.poll found) Done }
        ensures polls { SoundPolling layout.now self.new.poll }
    {
        match self.poll.take(layout, found) {
            None => None,
            Some(()) => {
                self.at = TaskAt::Idle;
                Some(Answer::Done)
            }
        }
    }

    /// Goroutine `g` ends.
    fn take_end(&mut self, layout: &Layout, g: u32) -> Option<Answer>
        requires polls { SoundPolling layout.now self.old.poll }
        requires there { g < layout.now.goroutines }
        ensures goes { self.new ≡ at_task (at_poll self.old (with_ended self.old.poll g)) task.Idle }
        ensures gives { result ≡ Some Done }
        ensures polls { SoundPolling layout.now self.new.poll }
    {
        let _ = layout;
        self.poll.end(g);
        self.at = TaskAt::Idle;
        Some(Answer::Done)
    }

    /// It runs a statement of a goroutine.
    pub(crate) fn is_serving(&self) -> bool
        ensures { result ≡ is_serving self.now.task }
    {
        match &self.at {
            TaskAt::Idle | TaskAt::Left | TaskAt::Poll | TaskAt::End(_) => false,
            TaskAt::Large => match &self.large {
                LargeTask::Leave(_) => false,
                _ => true,
            },
            _ => true,
        }
    }

    /// The step that found this is the point of a statement.
    pub(crate) fn is_point(&self, layout: &Layout, shapes: &Shapes, found: u64) -> bool
        requires polls { SoundPolling layout.now self.now.poll }
        requires sound { Sound layout.now shapes.now self.now }
        ensures { result ≡ is_point (acts layout.now self.now found) }
    {
        match &self.at {
            TaskAt::Idle | TaskAt::Left | TaskAt::Poll | TaskAt::End(_) => false,
            TaskAt::Load(x) => x.acts(found),
            TaskAt::Direct(x) => x.acts(),
            TaskAt::Register(_) => true,
            TaskAt::Gc(_, wait) => wait.ends_by(found),
            TaskAt::Large => match &self.large {
                LargeTask::Leave(_) => false,
                LargeTask::Store(x) => x.acts(
                    layout,
                    &self.poll,
                    self.poll.register(x.g, x.v),
                    found,
                ),
                LargeTask::Write(x) => x.write.is_point(),
                LargeTask::New(new) => match &new.stage {
                    NewStage::Search { waited, search } => *waited && search.refuses(),
                    NewStage::Wait(_) => false,
                    NewStage::Place(place) => place.acts(),
                    NewStage::Want(_) | NewStage::Assist(..) => false,
                },
            },
        }
    }

    /// It has left.
    pub(crate) fn has_left(&self) -> bool
        ensures { result ≡ has_left_at self.now.task }
    {
        match self.at {
            TaskAt::Left => true,
            _ => false,
        }
    }

    /// Its next step is its last: it leaves.
    pub(crate) fn is_last(&self) -> bool
        ensures { result ≡ is_last self.now.task }
    {
        match &self.at {
            TaskAt::Large => match &self.large {
                LargeTask::Leave(leave) => leave.is_last(),
                _ => false,
            },
            _ => false,
        }
    }

    /// It makes an object, and searches for its slot.
    #[inline(always)]
    pub(crate) fn is_searching(&self) -> bool
        ensures { result ≡ is_searching self.now.task }
    {
        match &self.at {
            TaskAt::Large => match &self.large {
                LargeTask::New(new) => match &new.stage {
                    NewStage::Search { .. } => true,
                    _ => false,
                },
                _ => false,
            },
            _ => false,
        }
    }

    /// The cell that its next step loads, where it searches for the slot of an object and looks at a slot, a span or a page.
    #[inline(always)]
    pub(crate) fn seeks(&self, layout: &Layout, _shapes: &Shapes) -> Option<Cell>
        requires sound { Sound layout.now _shapes.now self.now }
        ensures asks { IfSome result (λ c. asks layout.now self.now ≡ Ask.Load c) }
        ensures within { IfSome result (InRange layout.now) }
        ensures busy { IfSome result (λ c. is_busy_at self.now.task ≡ true) }
    {
        match &self.at {
            TaskAt::Large => match &self.large {
                LargeTask::New(new) => match &new.stage {
                    NewStage::Search { search, .. } => search.looks(layout),
                    _ => None,
                },
                _ => None,
            },
            _ => None,
        }
    }

    /// Makes the step that found this at once, where by it the search of a `new`, in its first round, goes on to the next slot of
    /// the cached span, to the next alloc word of a span or to a further page, and answers whether that is so; where not, nothing
    /// has changed.
    #[inline(always)]
    pub(crate) fn goes_on(&mut self, layout: &Layout, _shapes: &Shapes, found: u64) -> bool
        requires polls { SoundPolling layout.now self.old.poll }
        requires sound { Sound layout.now _shapes.now self.old }
        ensures exactly { result ≡ search_goes_on layout.now self.old.task found }
        ensures goes { IsTrue result → self.new ≡ takes layout.now _shapes.now self.old found }
        ensures polls { SoundPolling layout.now self.new.poll }
        ensures sound { Sound layout.now _shapes.now self.new }
        ensures last { IsTrue result → is_last self.old.task ≡ false }
        ensures point { IsTrue result → is_point (acts layout.now self.old found) ≡ false }
        ensures answer { IsTrue result → statement_answer layout.now self.old found ≡ None }
        ensures stays { result ≡ false → self.new ≡ self.old }
    {
        searching_is_a_routine();
        match &self.at {
            TaskAt::Large => match &mut self.large {
                LargeTask::New(new) => match &mut new.stage {
                    NewStage::Search { search, .. } => {
                        let goes_on = search.goes_on(layout, found);
                        if goes_on && search.is_in_span() {
                            self.poll
                                .cache_span(layout, &new.wanted.sought, search.cached());
                        }
                        goes_on
                    }
                    _ => false,
                },
                _ => false,
            },
            _ => false,
        }
    }

    /// Makes the step that found this at once, where by it the search of a `new`, in its first round, ends with the slot at the
    /// cursor of the cached span, and answers whether that is so: the object is made there next. Where not, nothing has changed.
    #[inline(always)]
    pub(crate) fn finds(&mut self, layout: &Layout, shapes: &'s Shapes, found: u64) -> bool
        requires polls { SoundPolling layout.now self.old.poll }
        requires sound { Sound layout.now shapes.now self.old }
        ensures goes { IsTrue result → self.new ≡ takes layout.now shapes.now self.old found }
        ensures polls { SoundPolling layout.now self.new.poll }
        ensures sound { Sound layout.now shapes.now self.new }
        ensures last { IsTrue result → is_last self.old.task ≡ false }
        ensures point { IsTrue result → is_point (acts layout.now self.old found) ≡ false }
        ensures answer { IsTrue result → statement_answer layout.now self.old found ≡ None }
        ensures stays { result ≡ false → self.new ≡ self.old }
    {
        size_class_laws();
        match &self.at {
            TaskAt::Large => match &self.large {
                LargeTask::New(new) => match &new.stage {
                    NewStage::Search { search, .. } => match search.finds(layout, found) {
                        Some(at) => {
                            let wanted = new.wanted;
                            self.begin_place(layout, shapes, wanted, at);
                            true
                        }
                        None => false,
                    },
                    _ => false,
                },
                _ => false,
            },
            _ => false,
        }
    }

    /// It waits in a `gc`: [`Processor::waits`] may make its next step.
    #[inline(always)]
    pub(crate) fn is_waiting(&self) -> bool
        ensures { result ≡ is_waiting self.now.task }
    {
        match &self.at {
            TaskAt::Gc(..) => true,
            _ => false,
        }
    }

    /// The cell that its next step loads, where it waits in a `gc` for the cycle, or for the end of a stop.
    #[inline(always)]
    pub(crate) fn looks(&self) -> Option<Cell>
        ensures asks { IfSome result (λ c. (l : Layout) → asks l self.now ≡ Ask.Load c) }
        ensures within { IfSome result (λ c. (l : Layout) → InRange l c) }
        ensures busy { IfSome result (λ c. is_busy_at self.now.task ≡ true) }
    {
        match &self.at {
            TaskAt::Gc(_, wait) => wait.looks(&self.poll),
            _ => None,
        }
    }

    /// Makes the step that found this at once, where by it the wait of a `gc` goes on with a number or two changed, and answers
    /// whether that is so; where not, nothing has changed.
    #[inline(always)]
    pub(crate) fn waits(&mut self, layout: &Layout, found: u64) -> bool
        requires polls { SoundPolling layout.now self.old.poll }
        ensures goes { IsTrue result → (shapes : List Shape) → self.new ≡ takes layout.now shapes self.old found }
        ensures polls { SoundPolling layout.now self.new.poll }
        ensures sound { (shapes : List Shape) → Sound layout.now shapes self.old → Sound layout.now shapes self.new }
        ensures last { IsTrue result → is_last self.old.task ≡ false }
        ensures point { IsTrue result → is_point (acts layout.now self.old found) ≡ false }
        ensures answer { IsTrue result → statement_answer layout.now self.old found ≡ None }
        ensures stays { result ≡ false → self.new ≡ self.old }
    {
        match &mut self.at {
            TaskAt::Gc(_, wait) => wait.goes_on(layout, &mut self.poll, found),
            _ => false,
        }
    }

    /// Its next step is one of the making of an object in its slot, and neither gives a span back nor is the last:
    /// [`Processor::make_on`] may make it.
    #[inline(always)]
    pub(crate) fn goes_further(&self) -> bool
        ensures { result ≡ is_made_further self.now.task }
    {
        match &self.at {
            TaskAt::Large => match &self.large {
                LargeTask::New(new) => match &new.stage {
                    NewStage::Place(place) => place.goes_further(),
                    _ => false,
                },
                _ => false,
            },
            _ => false,
        }
    }

    /// Makes such a step on these words, and answers whether it makes the object, which is the point of the statement.
    #[inline(always)]
    pub(crate) fn make_on<W: Words>(
        &mut self,
        layout: &Layout,
        _shapes: &Shapes,
        words: &mut W,
    ) -> bool
        requires polls { SoundPolling layout.now self.old.poll }
        requires sound { Sound layout.now _shapes.now self.old }
        requires further { is_made_further self.old.task ≡ true }
        requires long { length (W.list words.old) ≡ length_of layout.now }
        ensures words { W.list words.new ≡ changed (request layout.now (asks layout.now self.old)) (W.list words.old) }
        ensures within { InRange layout.now (cell_of (asks layout.now self.old)) }
        ensures goes { let found = slice_index (W.list words.old) (target (request layout.now (asks layout.now self.old))) in
            self.new ≡ takes layout.now _shapes.now self.old found }
        ensures busy { is_busy_at self.old.task ≡ true }
        ensures last { is_last self.old.task ≡ false }
        ensures point { let found = slice_index (W.list words.old) (target (request layout.now (asks layout.now self.old))) in
            is_point (acts layout.now self.old found) ≡ result }
        ensures answer { let found = slice_index (W.list words.old) (target (request layout.now (asks layout.now self.old))) in
            statement_answer layout.now self.old found ≡ None }
        ensures polls { SoundPolling layout.now self.new.poll }
        ensures sound { Sound layout.now _shapes.now self.new }
    {
        if let LargeTask::New(new) = &mut self.large {
            if let NewStage::Place(place) = &mut new.stage {
                let acts = place.acts();
                place.make_on(layout, words);
                if acts {
                    let (g, d) = (new.wanted.g, new.wanted.d);
                    let at = place.word();
                    self.made[g as usize] += 1;
                    self.poll.set_register(g, d, Value::Ref(u64::from(at) + 1));
                }
                return acts;
            }
        }
        false
    }

    /// It makes an object in its slot, and loads the trigger next: [`Processor::ends_by`] may make its next step.
    #[inline(always)]
    pub(crate) fn is_at_trigger(&self) -> bool
        ensures asks { IsTrue result → (l : Layout) → asks l self.now ≡ Ask.Load Cell.Trigger }
        ensures busy { IsTrue result → is_busy_at self.now.task ≡ true }
    {
        match &self.at {
            TaskAt::Large => match &self.large {
                LargeTask::New(new) => match &new.stage {
                    NewStage::Place(place) => place.is_at_trigger(),
                    _ => false,
                },
                _ => false,
            },
            _ => false,
        }
    }

    /// Makes the step that found this at once, where by it a `new` that loads the trigger ends, and answers the name of its
    /// object then; where not, nothing has changed. It ends where the heap's bytes are below the trigger and marking is off.
    #[inline(always)]
    pub(crate) fn ends_by(&mut self, layout: &Layout, _shapes: &Shapes, found: u64) -> Option<Name>
        requires polls { SoundPolling layout.now self.old.poll }
        requires sound { Sound layout.now _shapes.now self.old }
        ensures goes { IfSome result (λ name. self.new ≡ takes layout.now _shapes.now self.old found) }
        ensures last { IfSome result (λ name. is_last self.old.task ≡ false) }
        ensures point { IfSome result (λ name. is_point (acts layout.now self.old found) ≡ false) }
        ensures answer { IfSome result (λ name. statement_answer layout.now self.old found ≡ Some (Ref name)) }
        ensures polls { SoundPolling layout.now self.new.poll }
        ensures sound { Sound layout.now _shapes.now self.new }
        ensures stays { result ≡ None → self.new ≡ self.old }
    {
        let _ = layout;
        let TaskAt::Large = &self.at else {
            return None;
        };
        let LargeTask::New(new) = &self.large else {
            return None;
        };
        let NewStage::Place(place) = &new.stage else {
            return None;
        };
        if !place.ends_by(found) || self.poll.marking() {
            return None;
        }
        self.at = TaskAt::Idle;
        Some(place.name())
    }

    /// It loads or stores a field: [`Processor::reads`] may make its next step.
    #[inline(always)]
    pub(crate) fn is_at_field(&self) -> bool
        ensures { result ≡ is_at_field self.now.task }
    {
        match &self.at {
            TaskAt::Load(_) => true,
            TaskAt::Large => match &self.large {
                LargeTask::Store(_) => true,
                _ => false,
            },
            _ => false,
        }
    }

    /// The cell that its next step loads, where it loads or stores a field and looks at the page word of the object or at the word of
    /// the bitmap.
    #[inline(always)]
    pub(crate) fn reads_at(&self, layout: &Layout, _shapes: &Shapes) -> Option<Cell>
        requires sound { Sound layout.now _shapes.now self.now }
        ensures asks { IfSome result (λ c. asks layout.now self.now ≡ Ask.Load c) }
        ensures within { IfSome result (InRange layout.now) }
        ensures busy { IfSome result (λ c. is_busy_at self.now.task ≡ true) }
    {
        match &self.at {
            TaskAt::Load(x) => x.looks(layout),
            TaskAt::Large => match &self.large {
                LargeTask::Store(x) => x.looks(layout),
                _ => None,
            },
            _ => None,
        }
    }

    /// Makes the step that found this at once, where by it the load or the store of a field goes on to its next word, and answers
    /// whether that is so; where not, nothing has changed.
    #[inline(always)]
    pub(crate) fn reads(&mut self, layout: &Layout, _shapes: &Shapes, found: u64) -> bool
        requires polls { SoundPolling layout.now self.old.poll }
        requires sound { Sound layout.now _shapes.now self.old }
        ensures goes { IsTrue result → self.new ≡ takes layout.now _shapes.now self.old found }
        ensures polls { SoundPolling layout.now self.new.poll }
        ensures sound { Sound layout.now _shapes.now self.new }
        ensures last { IsTrue result → is_last self.old.task ≡ false }
        ensures point { IsTrue result → is_point (acts layout.now self.old found) ≡ false }
        ensures answer { IsTrue result → statement_answer layout.now self.old found ≡ None }
        ensures stays { result ≡ false → self.new ≡ self.old }
    {
        match &mut self.at {
            TaskAt::Load(x) => x.reads(layout, found),
            TaskAt::Large => match &mut self.large {
                LargeTask::Store(x) => {
                    let held = self.poll.register(x.g, x.v);
                    x.reads(layout, &self.poll, held, found)
                }
                _ => false,
            },
            _ => false,
        }
    }
}
