//! A processor of a world, and how far it is among its turns.

ghost use Rattle.std.specs.Prelude.{◌≡◌, ℕ, ◌<◌, ◌&&◌, not, length, slice_index, true, false, IfSome, IsTrue, None, Some};
ghost use Rattle.gh_base.specs.Cells.{InRange, length_of};
ghost use Rattle.gh_base.specs.declared.limits.TheConstants.{MOST_GOROUTINES};
ghost use Rattle.gh_base.specs.declared.layout.Layout.{Layout};
ghost use Rattle.gh_base.specs.Steps.{cell_of, changed, request, target};
ghost use Rattle.gh_base.specs.declared.cell.Ask.TheVariants as ask;
ghost use Rattle.gh_base.specs.declared.cell.Cell.TheVariants as cell;
ghost use Rattle.gh_base.specs.declared.value.Answer.TheVariants as answers;
ghost use Rattle.gh_world.specs.declared.event.Event.TheVariants as events;
ghost use Rattle.gh_mutator.specs.Listing.{is_made_further};
ghost use Rattle.gh_mutator.specs.Mutating as mutating;
ghost use Rattle.gh_mutator.specs.Mutating.{asks, goes, is_busy, passes, sets};
ghost use Rattle.gh_mutator.specs.Serving.{has_left_at, is_last, is_point, statement_answer};
ghost use Rattle.gh_mutator.specs.Sound.{SoundMutating};
ghost use Rattle.gh_world.specs.Turns.{is_poll_due, op_due};
ghost use Rattle.gh_world.specs.World.{event_at, now_of, op_at_turn, Begins, SoundTurns, IsOpening, LaysOut, MakesAtOnce, Ran};

use crate::event::{Event, event_at};
use crate::progress::Progress;
use crate::turns::{Next, following};
use gh_base::{Answer, Ask, Cell, Layout, Name, Op};
use gh_mutator::Mutator;
use gh_mutator::laws::polls_make_room;
use gh_script::Script;
use gh_words::{Plain, Words};

/// Makes a step of the search of a `new` at once, where it goes on at once ([`Mutator::goes_on`]) or by it the search has found
/// what it is for ([`Mutator::finds`]). It answers whether it did; where not, nothing is done. Such a step is a load, which changes
/// no word.
// It stands apart, so that the loop of turns holds none of it.
#[inline(never)]
fn goes_on<'s>(layout: &Layout, mutator: &mut Mutator<'s>, words: &Plain) -> bool
    requires sound { SoundMutating layout.now mutator.old.shapes mutator.old.processor }
    requires long { length words.now ≡ length_of layout.now }
    ensures made { IsTrue result → MakesAtOnce layout.now words.now words.now mutator.old mutator.new false None }
    ensures sound { SoundMutating layout.now mutator.new.shapes mutator.new.processor }
    ensures stays { result ≡ false → mutator.new ≡ mutator.old }
{
    match mutator.seeks(layout) {
        Some(cell) => {
            let word = layout.word(cell);
            let found = words.word_at(word);
            if mutator.goes_on(layout, found) {
                return true;
            }
            mutator.finds(layout, found)
        }
        None => false,
    }
}

/// Makes a step of a `gc` that waits, where it goes on at once ([`Mutator::waits`]). It answers whether it did; where not, nothing
/// is done. Such a step is a load, which changes no word.
#[inline(never)]
fn waits<'s>(layout: &Layout, mutator: &mut Mutator<'s>, words: &Plain) -> bool
    requires sound { SoundMutating layout.now mutator.old.shapes mutator.old.processor }
    requires long { length words.now ≡ length_of layout.now }
    ensures made { IsTrue result → MakesAtOnce layout.now words.now words.now mutator.old mutator.new false None }
    ensures sound { SoundMutating layout.now mutator.new.shapes mutator.new.processor }
    ensures stays { result ≡ false → mutator.new ≡ mutator.old }
{
    match mutator.looks() {
        Some(cell) => {
            let word = layout.word(cell);
            mutator.waits(layout, words.word_at(word))
        }
        None => false,
    }
}

/// Makes a step of the load or the store of a field, where it goes on to its next word at once ([`Mutator::reads`]). It answers whether
/// it did; where not, nothing is done. Such a step is a load, which changes no word.
#[inline(never)]
fn reads<'s>(layout: &Layout, mutator: &mut Mutator<'s>, words: &Plain) -> bool
    requires sound { SoundMutating layout.now mutator.old.shapes mutator.old.processor }
    requires long { length words.now ≡ length_of layout.now }
    ensures made { IsTrue result → MakesAtOnce layout.now words.now words.now mutator.old mutator.new false None }
    ensures sound { SoundMutating layout.now mutator.new.shapes mutator.new.processor }
    ensures stays { result ≡ false → mutator.new ≡ mutator.old }
{
    match mutator.reads_at(layout) {
        Some(cell) => {
            let word = layout.word(cell);
            mutator.reads(layout, words.word_at(word))
        }
        None => false,
    }
}

/// Makes a step of the making of an object at once ([`Mutator::make_on`]), and answers whether it is the point of the statement.
#[inline(never)]
fn make_on<'s>(layout: &Layout, mutator: &mut Mutator<'s>, words: &mut Plain) -> bool
    requires sound { SoundMutating layout.now mutator.old.shapes mutator.old.processor }
    requires further { is_made_further mutator.old.processor.task ≡ true }
    requires long { length words.old ≡ length_of layout.now }
    ensures made { MakesAtOnce layout.now words.old words.new mutator.old mutator.new result None }
    ensures busy { is_busy mutator.old ≡ true }
    ensures sound { SoundMutating layout.now mutator.new.shapes mutator.new.processor }
{
    mutator.make_on(layout, words)
}

/// Makes the step that loads the trigger at once, where by it the `new` ends and does not ask for a cycle ([`Mutator::ends_by`]). It
/// answers the name of the object, which the statement is answered; where not, nothing is done. Such a step changes no word.
#[inline(always)]
fn end_making<'s>(layout: &Layout, mutator: &mut Mutator<'s>, words: &Plain) -> Option<Name>
    requires sound { SoundMutating layout.now mutator.old.shapes mutator.old.processor }
    requires long { length words.now ≡ length_of layout.now }
    ensures made { IfSome result (λ name. MakesAtOnce layout.now words.now words.now mutator.old mutator.new false (Some (answers.Ref name))) }
    ensures sound { SoundMutating layout.now mutator.new.shapes mutator.new.processor }
    ensures stays { result ≡ None → mutator.new ≡ mutator.old }
{
    if !mutator.is_at_trigger() {
        return None;
    }
    let word = layout.word(Cell::Trigger);
    mutator.ends_by(layout, words.word_at(word))
}

/// Makes the step that loads the name of an object to which a global referred at once ([`Mutator::names`]). It answers what the load of
/// the global is answered; where that is not the next step, nothing is done. Such a step changes no word.
#[inline(always)]
fn end_naming<'s>(layout: &Layout, mutator: &mut Mutator<'s>, words: &Plain) -> Option<Answer>
    requires sound { SoundMutating layout.now mutator.old.shapes mutator.old.processor }
    requires long { length words.now ≡ length_of layout.now }
    ensures made { IfSome result (λ a. MakesAtOnce layout.now words.now words.now mutator.old mutator.new false (Some a)) }
    ensures sound { SoundMutating layout.now mutator.new.shapes mutator.new.processor }
    ensures stays { result ≡ None → mutator.new ≡ mutator.old }
{
    match mutator.names_at(layout) {
        Some(cell) => {
            let word = layout.word(cell);
            mutator.names(layout, words.word_at(word))
        }
        None => None,
    }
}

/// A processor, and how far it is among its turns.
#[derive(Drop)]
pub struct Runner<'s> {
    pub mutator: Mutator<'s>,
    pub progress: Progress,
}

impl<'s> Runner<'s> {
    /// The processor at this seat, before its first step.
    pub fn opening(script: &'s Script, seat: u32) -> Runner<'s>
        ensures opens { IsOpening script.now seat result }
        ensures sound { (l : Layout) → seat < l.procs → SoundMutating l result.mutator.shapes result.mutator.processor }
    {
        script.is_well_formed();
        Runner {
            mutator: Mutator::new(seat, script.shapes()),
            progress: Progress::opening(script, seat),
        }
    }

    /// One step of the processor at this seat, which begins its next operation where none is begun: what it says, and whether
    /// it is the point of the statement begun last.
    #[inline(never)]
    pub fn run(
        &mut self,
        script: &Script,
        layout: &Layout,
        seat: u32,
        words: &mut Plain,
    ) -> (Event, bool)
        requires layout { LaysOut script.now layout.now }
        requires fits { SoundTurns script.now seat self.old.mutator self.old.progress }
        requires sound { SoundMutating layout.now self.old.mutator.shapes self.old.mutator.processor }
        requires going { has_left_at self.old.mutator.processor.task ≡ false }
        requires long { length words.old ≡ length_of layout.now }
        ensures ran { Ran script.now layout.now seat words.old words.new self.old self.new result.0 result.1 }
        ensures sound { SoundMutating layout.now self.new.mutator.shapes self.new.mutator.processor }
    {
        if self.mutator.is_busy() {
            return self.advance(layout, words);
        }
        self.begin_next(script, layout, seat);
        if reads(layout, &mut self.mutator, words) {
            return (Event::Moved, false);
        }
        self.advance(layout, words)
    }

    /// Makes one step of the processor at this seat at once, where that says nothing more than that it moved, and is a poll with
    /// nothing to do, or a step of the search or the making of an object, of the wait of a `gc`, or of the load or the store of a field,
    /// that goes on. It answers whether it is the point of the statement begun last; `None`: nothing is done.
    // Most of all steps are such, and none of them goes through all that a processor may be at.
    #[inline(always)]
    pub fn moves(
        &mut self,
        script: &Script,
        layout: &Layout,
        seat: u32,
        words: &mut Plain,
    ) -> Option<bool>
        requires layout { LaysOut script.now layout.now }
        requires fits { SoundTurns script.now seat self.old.mutator self.old.progress }
        requires sound { SoundMutating layout.now self.old.mutator.shapes self.old.mutator.processor }
        requires going { has_left_at self.old.mutator.processor.task ≡ false }
        requires long { length words.old ≡ length_of layout.now }
        ensures ran { IfSome result (λ is_point. Ran script.now layout.now seat words.old words.new self.old self.new events.Moved is_point) }
        ensures sound { SoundMutating layout.now self.new.mutator.shapes self.new.mutator.processor }
        ensures stays { result ≡ None → (self.new ≡ self.old) × (words.new ≡ words.old) }
    {
        if !self.mutator.is_busy() {
            if self.passes(script, layout, seat, words) {
                return Some(false);
            }
            return None;
        }
        if self.mutator.goes_further() {
            return Some(make_on(layout, &mut self.mutator, words));
        }
        if self.mutator.is_searching() {
            if goes_on(layout, &mut self.mutator, words) {
                return Some(false);
            }
            return None;
        }
        if self.mutator.is_waiting() && waits(layout, &mut self.mutator, words) {
            return Some(false);
        }
        if self.mutator.is_at_field() && reads(layout, &mut self.mutator, words) {
            return Some(false);
        }
        None
    }

    /// Makes the poll that comes next at once, where it has nothing to do, or is only counted ([`Mutator::polls`]). It answers whether
    /// it did; where not, nothing is done.
    #[inline(always)]
    fn passes(&mut self, script: &Script, layout: &Layout, seat: u32, words: &mut Plain) -> bool
        requires layout { LaysOut script.now layout.now }
        requires fits { SoundTurns script.now seat self.old.mutator self.old.progress }
        requires sound { SoundMutating layout.now self.old.mutator.shapes self.old.mutator.processor }
        requires going { has_left_at self.old.mutator.processor.task ≡ false }
        requires long { length words.old ≡ length_of layout.now }
        ensures passes { let found = slice_index words.old (target (request layout.now (ask.Load cell.Phase))) in
            IsTrue (not (is_busy self.old.mutator) && is_poll_due self.old.progress.next && passes self.old.mutator found) → result ≡ true }
        ensures ran { IsTrue result → Ran script.now layout.now seat words.old words.new self.old self.new events.Moved false }
        ensures sound { SoundMutating layout.now self.new.mutator.shapes self.new.mutator.processor }
        ensures stays { result ≡ false → (self.new ≡ self.old) × (words.new ≡ words.old) }
    {
        polls_make_room();
        script.is_well_formed();
        if self.mutator.is_busy() {
            return false;
        }
        let Next::Poll { .. } = self.progress.next else {
            return false;
        };
        let request = layout.request(Ask::Load(Cell::Phase));
        if !self.mutator.polls(layout, words.word_at(request.word())) {
            return false;
        }
        words.step(request);
        self.progress.next = following(script, seat, self.progress.next);
        true
    }

    /// Makes what comes next at once, nothing being begun, where it is a statement on registers alone. It answers whether it did; where
    /// not, nothing is done.
    #[inline(always)]
    pub fn sets(
        &mut self,
        script: &Script,
        layout: &Layout,
        seat: u32,
        op: Op,
        words: &mut Plain,
    ) -> bool
        requires layout { LaysOut script.now layout.now }
        requires fits { SoundTurns script.now seat self.old.mutator self.old.progress }
        requires sound { SoundMutating layout.now self.old.mutator.shapes self.old.mutator.processor }
        requires idle { is_busy self.old.mutator ≡ false }
        requires due { op_due script.now self.old.progress.next ≡ Some op }
        requires going { has_left_at self.old.mutator.processor.task ≡ false }
        requires long { length words.old ≡ length_of layout.now }
        ensures exactly { result ≡ sets self.old.mutator op }
        ensures ran { let now = now_of self.new.progress in
            IsTrue result → Ran script.now layout.now seat words.old words.new self.old self.new (events.Answered now.0 now.1 answers.Done) true }
        ensures sound { SoundMutating layout.now self.new.mutator.shapes self.new.mutator.processor }
        ensures stays { result ≡ false → (self.new ≡ self.old) × (words.new ≡ words.old) }
    {
        polls_make_room();
        script.is_well_formed();
        if !self.mutator.sets(layout, op) {
            return false;
        }
        words.step(layout.request(Ask::Load(Cell::Touch)));
        self.progress.advance(script, seat, op);
        true
    }

    /// Makes the first step of what comes next at once, nothing being begun, where that is the load or the store of a global
    /// ([`Mutator::directly`]), and tells what it says; where not, nothing is done. It is a call, since few turns are such.
    #[inline(never)]
    pub fn directs(
        &mut self,
        script: &Script,
        layout: &Layout,
        seat: u32,
        op: Op,
        words: &mut Plain,
    ) -> Option<Event>
        requires layout { LaysOut script.now layout.now }
        requires fits { SoundTurns script.now seat self.old.mutator self.old.progress }
        requires sound { SoundMutating layout.now self.old.mutator.shapes self.old.mutator.processor }
        requires idle { is_busy self.old.mutator ≡ false }
        requires due { op_due script.now self.old.progress.next ≡ Some op }
        requires going { has_left_at self.old.mutator.processor.task ≡ false }
        requires long { length words.old ≡ length_of layout.now }
        ensures ran { IfSome result (λ event. Ran script.now layout.now seat words.old words.new self.old self.new event true) }
        ensures sound { SoundMutating layout.now self.new.mutator.shapes self.new.mutator.processor }
        ensures stays { result ≡ None → (self.new ≡ self.old) × (words.new ≡ words.old) }
    {
        polls_make_room();
        script.is_well_formed();
        let Some(ask) = self.mutator.direct(layout, op) else {
            return None;
        };
        let found = words.step(layout.request(ask));
        let answer = self.mutator.directly(layout, op, found);
        self.progress.advance(script, seat, op);
        let (g, n) = self.progress.now();
        Some(event_at(g, n, false, answer))
    }

    /// What it begins with its next step: `None` exactly where something is begun, or nothing is to come.
    #[inline(always)]
    pub fn due(&self, script: &Script) -> Option<Op>
        requires { (seat : ℕ) × SoundTurns script.now seat self.now.mutator self.now.progress }
        ensures is { result ≡ op_at_turn script.now (is_busy self.now.mutator) self.now.progress.next }
        ensures idle { IfSome result (λ op. is_busy self.now.mutator ≡ false) }
        ensures due { IfSome result (λ op. op_due script.now self.now.progress.next ≡ Some op) }
    {
        if self.mutator.is_busy() {
            return None;
        }
        self.progress.due(script)
    }

    /// Begins the next operation of the processor at this seat where none is begun.
    #[inline(always)]
    pub fn begin_next(&mut self, script: &Script, layout: &Layout, seat: u32)
        requires layout { LaysOut script.now layout.now }
        requires fits { SoundTurns script.now seat self.old.mutator self.old.progress }
        requires sound { SoundMutating layout.now self.old.mutator.shapes self.old.mutator.processor }
        ensures begins { Begins script.now seat self.old self.new }
        ensures fits { SoundTurns script.now seat self.new.mutator self.new.progress }
        ensures sound { SoundMutating layout.now self.new.mutator.shapes self.new.mutator.processor }
        ensures busy { has_left_at self.old.mutator.processor.task ≡ false → is_busy self.new.mutator ≡ true }
    {
        if !self.mutator.is_busy() {
            self.begin_due(script, layout, seat);
        }
    }

    /// Begins the operation that comes next, where none is begun. It is a call, since most turns go on with what is begun.
    #[inline(never)]
    fn begin_due(&mut self, script: &Script, layout: &Layout, seat: u32)
        requires layout { LaysOut script.now layout.now }
        requires fits { SoundTurns script.now seat self.old.mutator self.old.progress }
        requires sound { SoundMutating layout.now self.old.mutator.shapes self.old.mutator.processor }
        requires idle { is_busy self.old.mutator ≡ false }
        ensures begins { Begins script.now seat self.old self.new }
        ensures fits { SoundTurns script.now seat self.new.mutator self.new.progress }
        ensures sound { SoundMutating layout.now self.new.mutator.shapes self.new.mutator.processor }
        ensures busy { has_left_at self.old.mutator.processor.task ≡ false → is_busy self.new.mutator ≡ true }
    {
        polls_make_room();
        script.is_well_formed();
        if let Some(op) = self.progress.due(script) {
            self.progress.advance(script, seat, op);
            self.mutator.begin(layout, op);
        }
    }

    /// One step of the processor: what it says, and whether it is the point of the statement begun last.
    #[inline(always)]
    pub fn advance(&mut self, layout: &Layout, words: &mut Plain) -> (Event, bool)
        requires sound { SoundMutating layout.now self.old.mutator.shapes self.old.mutator.processor }
        requires busy { is_busy self.old.mutator ≡ true }
        requires long { length words.old ≡ length_of layout.now }
        requires last { self.old.progress.last < MOST_GOROUTINES }
        ensures within { InRange layout.now (cell_of (asks layout.now self.old.mutator)) }
        ensures words { words.new ≡ changed (request layout.now (asks layout.now self.old.mutator)) words.old }
        ensures goes { let found = slice_index words.old (target (request layout.now (asks layout.now self.old.mutator))) in
            self.new ≡ record self.old { mutator = goes layout.now self.old.mutator found } }
        ensures says { let found = slice_index words.old (target (request layout.now (asks layout.now self.old.mutator))) in
            result.0 ≡ event_at (now_of self.old.progress) (is_last self.old.mutator.processor.task) (statement_answer layout.now self.old.mutator.processor found) }
        ensures point { let found = slice_index words.old (target (request layout.now (asks layout.now self.old.mutator))) in
            result.1 ≡ is_point (mutating.acts layout.now self.old.mutator found) }
        ensures sound { SoundMutating layout.now self.new.mutator.shapes self.new.mutator.processor }
    {
        if let Some(answer) = end_naming(layout, &mut self.mutator, words) {
            let (g, n) = self.progress.now();
            return (Event::Answered { g, n, answer }, false);
        }
        if let Some(name) = end_making(layout, &mut self.mutator, words) {
            let (g, n) = self.progress.now();
            let answer = Answer::Ref(name);
            return (Event::Answered { g, n, answer }, false);
        }
        let found = words.step(self.mutator.next(layout));
        let is_serving = self.mutator.is_serving();
        let is_last = self.mutator.is_last();
        let is_point = self.mutator.is_point(layout, found);
        let ended = self.mutator.take(layout, found);
        let answer = if is_serving { ended } else { None };
        let (g, n) = self.progress.now();
        (event_at(g, n, is_last, answer), is_point)
    }
}
