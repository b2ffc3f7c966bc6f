//! The poll of a processor among a collector.

ghost use Rattle.std.specs.Prelude.{◌≡◌, ◌^◌, ◌<◌, IfSome, IsTrue, None, Some, false, true, length};
ghost use Rattle.gh_base.specs.Cells.{InRange};
ghost use Rattle.gh_base.specs.declared.layout.Layout.{Layout};
ghost use Rattle.gh_base.specs.declared.limits.TheConstants.{MOST_GOROUTINES};
ghost use Rattle.gh_phase.specs.Listing as resumes;
ghost use Rattle.gh_poll.specs.Local.{passes};
ghost use Rattle.gh_poll.specs.Poll.{asks, at_stage, begins, begins_stack, counted, due, first_due, given, gives as gives_by, giving, goes, goes_at, has_two, is_due, marks_then, owed_then, resting, resumed as resumed_by, stops_then};
ghost use Rattle.gh_poll.specs.PollSound.{SoundPolling, is_amid};
ghost use Rattle.gh_phase.specs.Views.{FitsView};

use crate::give::{Cache, Give};
use crate::mark_stack::MarkStack;
use gh_base::limits::MOST_GOROUTINES;
use gh_base::{Ask, Cell, END, ENTRIES, Held, Layout, PhaseWord, Req, Routine, Value};
use gh_phase::{Resume, Resumed, RunPhase, View};
use gh_stack::REGISTER_COUNT;
use gh_wbuf::FindRoom;
use std::marker::Model;

/// The registers of each goroutine.
pub type Stacks = [[Value; REGISTER_COUNT]; MOST_GOROUTINES as usize];

/// The cycle in which each stack was scanned last; `END` where its goroutine has ended.
pub type Scanned = [u64; MOST_GOROUTINES as usize];

/// What a processor alone knows, and a poll reads and changes.
#[derive(Clone, Copy)]
pub struct Local {
    /// What it knows of the phase.
    pub view: View,
    /// The spans that it has cached.
    pub cache: Cache,
    /// The buffer that it holds, if any.
    pub held: Option<Held>,
    /// Its polls since it last learned of another cycle, modulo 2^64.
    pub polls: u64,
    /// The words of marking that it owes in this cycle, modulo 2^64.
    pub owed: u64,
    /// The words that it has ever drawn from the bank of credit.
    pub spent: u64,
    /// The last scan of each stack.
    pub scanned: Scanned,
    /// The stacks.
    pub stacks: Stacks,
}

/// The stages of a poll.
#[derive(Clone, Copy)]
pub enum PollStage {
    /// It loads the phase.
    LoadPhase,
    /// It gives back what it holds, at the stop of this number.
    Giving(Give, u64),
    /// It acknowledges the stop and goes on.
    Resuming(Resume),
    /// It scans the stack of this goroutine.
    Marking(u32, MarkStack),
    /// It looks for a buffer with room.
    FindRoom(FindRoom),
    /// It has ended.
    Ended,
}

/// Where a poll stands: at its beginning, amid its stages, or at its end.
#[derive(Clone, Copy)]
pub enum PollAt {
    /// It loads the phase.
    Begins,
    /// It is at the stage that is kept.
    Amid,
    /// It has ended.
    Over,
}

/// Polls (in Go a goroutine finds at its next safe point that it is to stop, where `preemptall` asked for that;
/// proc.go).
///
/// It loads the phase. At a stop it gives the cached spans and the buffer back, acknowledges, and goes on
/// once the world runs again. Then, while marking is on, every fourth poll scans the stack of the lowest
/// goroutine of the processor that has not ended and was not scanned in this cycle. A poll that is no part
/// of a wait sees at its end that a buffer is held which has room for the two entries of a write barrier.
///
/// A processor has one for its whole life, which keeps what it alone knows: at rest it has ended.
#[derive(Drop)]
pub struct Poll {
    pub(crate) seat: u32,
    waits: bool,
    pub(crate) local: Local,
    // Where it stands. The stage counts only amid the stages: so whatever polls with nothing to do, and each poll where it begins
    // and where it ends, writes this alone, and no stage, which has room for the spans that are given back.
    at: PollAt,
    stage: PollStage,
}

impl Model for Poll {
    ghost use Rattle.gh_poll.specs.Poll.{Polling};
    ghost use Rattle.gh_poll.specs.PollSound.{StandsSo, stage_kept};

    ghost Value = { Polling };

    ghost view = { λ p. record { seat = p.seat; waits = p.waits; local = p.local; stage = stage_kept p.at p.stage } };

    ghost invariant = { λ p. StandsSo p.at p.stage };
}

/// The stack of this goroutine is to be scanned in this cycle: it is one of the processor's, has not ended,
/// and was not scanned in the cycle.
fn is_due(layout: &Layout, seat: u32, cycle: u64, g: u32, last: u64) -> bool
    ensures { result ≡ is_due layout.now seat cycle g last }
{
    g < layout.goroutines && g % layout.procs == seat && last != END && last != cycle
}

/// The lowest goroutine whose stack is to be scanned in this cycle.
fn first_due(layout: &Layout, seat: u32, cycle: u64, scanned: &[u64]) -> Option<u32>
    requires { length scanned.now ≡ MOST_GOROUTINES }
    ensures is { result ≡ first_due layout.now seat cycle 0 scanned.now }
    ensures there { IfSome result (λ g. g < layout.now.goroutines) }
{
    for g in 0..layout.goroutines {
        if is_due(layout, seat, cycle, g, scanned[g as usize]) {
            return Some(g);
        }
    }
    None
}

/// What is owed of so many words behind a stop: all of them where the same cycle is still marked, and else none.
fn owed_then(resumed: &Resumed, owed: u64) -> u64
    ensures { result ≡ owed_then resumed.now owed }
{
    match resumed.view.phase {
        RunPhase::Mark if !resumed.another_cycle => owed,
        RunPhase::Mark | RunPhase::Off | RunPhase::Finished => 0,
    }
}

/// A buffer is held, and two entries go into it.
fn has_two(held: Option<Held>) -> bool
    ensures { result ≡ has_two held }
{
    match held {
        Some(held) => held.count <= ENTRIES - 2,
        None => false,
    }
}

impl Poll {
    /// The processor at this seat, at no poll, with what it knows.
    pub fn resting(seat: u32, local: &Local) -> Poll
        ensures { result ≡ resting seat local.now }
    {
        Poll {
            seat,
            waits: false,
            local: *local,
            at: PollAt::Over,
            stage: PollStage::Ended,
        }
    }

    /// It polls; `waits` says that the poll is a part of a wait.
    pub fn begin(&mut self, waits: bool)
        ensures { self.new ≡ begins self.old waits }
    {
        self.waits = waits;
        self.at = PollAt::Begins;
    }

    /// Makes a poll of a turn's own at once, by the phase word that it finds, where that is all that there is to do: no poll is
    /// under way, the world runs, and marking is off, as the processor knows. It answers whether that is so; where not, nothing
    /// is begun.
    #[inline(always)]
    pub fn passes(&mut self, found: u64) -> bool
        ensures exactly { result ≡ passes self.old found }
        ensures passed { IsTrue result → (l : Layout) → (self.new ≡ goes l (begins self.old false) found) × (gives_by l (begins self.old false) found ≡ Some tt) }
        ensures sound { (l : Layout) → SoundPolling l self.old → SoundPolling l self.new }
        ensures stays { result ≡ false → self.new ≡ self.old }
    {
        if !matches!(self.at, PollAt::Over) {
            return false;
        }
        let word = PhaseWord::unpack(found);
        // A stop is served stage by stage: what is held goes back before it is acknowledged.
        if RunPhase::of(word.phase).is_none() {
            return false;
        }
        match self.local.view.phase {
            // While marking is on a poll may scan a stack, and sees to a buffer with room.
            RunPhase::Mark => false,
            RunPhase::Off | RunPhase::Finished => {
                self.waits = false;
                true
            }
        }
    }

    /// Makes a poll of a turn's own at once, by the phase word that it finds, while marking is on, as the processor knows, where it is
    /// only counted: no poll is under way, the world runs, no stack is to be scanned, and the buffer that is held has room for the two
    /// entries of a write barrier. It answers whether that is so; where not, nothing is begun.
    #[inline(always)]
    pub fn passes_marking(&mut self, layout: &Layout, found: u64) -> bool
        requires sound { SoundPolling layout.now self.old }
        ensures passed { IsTrue result → (self.new ≡ goes layout.now (begins self.old false) found) × (gives_by layout.now (begins self.old false) found ≡ Some tt) }
        ensures sound { SoundPolling layout.now self.new }
        ensures stays { result ≡ false → self.new ≡ self.old }
    {
        if !matches!(self.at, PollAt::Over) {
            return false;
        }
        let word = PhaseWord::unpack(found);
        if RunPhase::of(word.phase).is_none() {
            return false;
        }
        match self.local.view.phase {
            RunPhase::Off | RunPhase::Finished => return false,
            RunPhase::Mark => {}
        }
        if !has_two(self.local.held) || self.due(layout).is_some() {
            return false;
        }
        self.waits = false;
        self.local.polls = self.local.polls.wrapping_add(1);
        true
    }

    /// The cell that its next step loads, where it begins or waits for the end of a stop.
    #[inline(always)]
    pub fn looks(&self) -> Option<Cell>
        ensures asks { IfSome result (λ c. asks self.now ≡ Ask.Load c) }
        ensures within { IfSome result (λ c. (l : Layout) → InRange l c) }
        ensures busy { IfSome result (λ c. given self.now.stage ≡ None) }
    {
        match self.at {
            PollAt::Begins => Some(Cell::Phase),
            PollAt::Over => None,
            PollAt::Amid => match &self.stage {
                PollStage::Resuming(resume) => resume.looks(),
                _ => None,
            },
        }
    }

    /// It waits on where its step found this: the stop that it has acknowledged lasts. The step changes nothing then.
    #[inline(always)]
    pub fn stands(&self, found: u64) -> bool
        ensures goes { IsTrue result → (l : Layout) → goes l self.now found ≡ self.now }
        ensures busy { IsTrue result → given self.now.stage ≡ None }
    {
        match self.at {
            PollAt::Amid => match &self.stage {
                PollStage::Resuming(resume) => resume.stands(found),
                _ => false,
            },
            PollAt::Begins | PollAt::Over => false,
        }
    }

    /// Makes the step that found this phase word at once, where by it a poll ends that has just begun: the world runs, and
    /// marking is off, as the processor knows, or the poll is a part of a wait and scans no stack. It answers whether that is so;
    /// where not, nothing has changed, and [`take`](Routine::take) makes the step.
    #[inline(always)]
    pub fn counts(&mut self, layout: &Layout, found: u64) -> bool
        requires sound { SoundPolling layout.now self.old }
        ensures goes { IsTrue result → self.new ≡ goes layout.now self.old found }
        ensures ends { IsTrue result → gives_by layout.now self.old found ≡ Some tt }
        ensures sound { SoundPolling layout.now self.new }
        ensures stays { result ≡ false → self.new ≡ self.old }
    {
        if !matches!(self.at, PollAt::Begins) {
            return false;
        }
        let word = PhaseWord::unpack(found);
        if RunPhase::of(word.phase).is_none() {
            return false;
        }
        match self.local.view.phase {
            RunPhase::Off | RunPhase::Finished => self.at = PollAt::Over,
            RunPhase::Mark => {
                if !self.waits || self.due(layout).is_some() {
                    return false;
                }
                self.count(layout);
            }
        }
        true
    }

    /// The poll is counted, and a buffer with room is looked for where the processor is to have one.
    fn count(&mut self, layout: &Layout)
        requires sound { SoundPolling layout.now self.old }
        ensures goes { self.new ≡ counted self.old }
        ensures sound { SoundPolling layout.now self.new }
    {
        let _ = layout;
        self.local.polls = self.local.polls.wrapping_add(1);
        // Within a wait no buffer is taken: the coordinator cannot see into one that is held, and the cycle that is waited for
        // might never end.
        if self.waits || has_two(self.local.held) {
            self.at = PollAt::Over;
        } else {
            let room = FindRoom::new(self.seat, self.local.held);
            self.at = PollAt::Amid;
            self.stage = PollStage::FindRoom(room);
        }
    }

    /// The goroutine whose stack this poll scans, if it scans one.
    fn due(&self, layout: &Layout) -> Option<u32>
        requires { SoundPolling layout.now self.now }
        ensures is { result ≡ due layout.now self.now }
        ensures there { IfSome result (λ g. g < layout.now.goroutines) }
    {
        // A scan takes many steps, so three polls of four go without: statements go on between two stacks.
        if self.local.polls % 4 == 0 {
            let cycle = self.local.view.begun;
            first_due(layout, self.seat, cycle, &self.local.scanned)
        } else {
            None
        }
    }

    /// Goes on where the world runs.
    fn mark(&mut self, layout: &Layout)
        requires sound { SoundPolling layout.now self.old }
        ensures goes { self.new ≡ marks_then layout.now self.old self.old.local.view.phase }
        ensures sound { SoundPolling layout.now self.new }
    {
        match self.local.view.phase {
            RunPhase::Off | RunPhase::Finished => self.at = PollAt::Over,
            RunPhase::Mark => match self.due(layout) {
                None => self.count(layout),
                Some(g) => self.begin_stack(layout, g),
            },
        }
    }

    /// It scans the stack of this goroutine.
    fn begin_stack(&mut self, layout: &Layout, g: u32)
        requires sound { SoundPolling layout.now self.old }
        requires there { g < layout.now.goroutines }
        ensures goes { self.new ≡ begins_stack layout.now self.old g }
        ensures sound { SoundPolling layout.now self.new }
    {
        let stack = self.local.stacks[g as usize];
        let (cycle, held) = (self.local.view.begun, self.local.held);
        let mark = MarkStack::new(layout, self.seat, g, cycle, stack, held);
        self.at = PollAt::Amid;
        self.stage = PollStage::Marking(g, mark);
    }

    /// Nothing is cached or held any more, at the stop of this number: it acknowledges that.
    // So whoever stops the world finds each entry in a buffer that nobody holds, and each span without an owner.
    fn acknowledge(&mut self, layout: &Layout, stops: u64)
        requires sound { SoundPolling layout.now self.old }
        requires stops { stops < 2 ^ 62 }
        ensures goes { self.new ≡ at_stage self.old (PollStage.Resuming (resumes.opening self.old.seat stops self.old.local.view)) }
        ensures sound { SoundPolling layout.now self.new }
    {
        let _ = layout;
        let resume = Resume::new(self.seat, stops, self.local.view);
        self.at = PollAt::Amid;
        self.stage = PollStage::Resuming(resume);
    }

    /// Begins to give back at the stop of this number; where nothing is left it acknowledges that.
    fn stop(&mut self, layout: &Layout, stops: u64)
        requires sound { SoundPolling layout.now self.old }
        requires stops { stops < 2 ^ 62 }
        ensures goes { self.new ≡ stops_then self.old (giving self.old) stops }
        ensures sound { SoundPolling layout.now self.new }
    {
        let generation = self.local.view.generation;
        let (cache, held) = (self.local.cache, self.local.held);
        let give = Give::new(layout, self.seat, generation, cache, held);
        if give.is_busy() {
            self.at = PollAt::Amid;
            self.stage = PollStage::Giving(give, stops);
        } else {
            self.local.cache = give.cache;
            self.local.held = give.held;
            self.acknowledge(layout, stops);
        }
    }

    /// Goes on by the phase word.
    fn by_phase(&mut self, layout: &Layout, found: u64)
        requires sound { SoundPolling layout.now self.old }
        ensures goes { self.new ≡ goes_at layout.now self.old PollStage.LoadPhase found }
        ensures sound { SoundPolling layout.now self.new }
    {
        let word = PhaseWord::unpack(found);
        match RunPhase::of(word.phase) {
            None => self.stop(layout, word.stops),
            Some(_) => self.mark(layout),
        }
    }

    /// Goes on behind a stop, with what is known of the phase then.
    fn resumed(&mut self, layout: &Layout, resumed: &Resumed)
        requires sound { SoundPolling layout.now self.old }
        requires view { FitsView resumed.now.view }
        ensures goes { self.new ≡ marks_then layout.now (resumed_by self.old resumed.now) resumed.now.view.phase }
        ensures sound { SoundPolling layout.now self.new }
    {
        self.local.view = resumed.view;
        // Each cycle scans its stacks anew, and begins with one at once.
        if resumed.another_cycle {
            self.local.polls = 0;
        }
        // What it owes it owes to one cycle's marking: there is nobody to pay once that is over.
        self.local.owed = owed_then(resumed, self.local.owed);
        self.mark(layout);
    }

    /// Takes a step amid its stages. Each stage is changed where it stands; one that is over is left behind before the poll goes on.
    fn go_on(&mut self, layout: &Layout, found: u64)
        requires sound { SoundPolling layout.now self.old }
        requires amid { is_amid self.old.stage ≡ true }
        ensures goes { self.new ≡ goes layout.now self.old found }
        ensures sound { SoundPolling layout.now self.new }
    {
        match &mut self.stage {
            PollStage::Giving(give, stops) => {
                give.take(layout, found);
                if !give.is_busy() {
                    let (cache, held, stops) = (give.cache, give.held, *stops);
                    self.at = PollAt::Over;
                    self.local.cache = cache;
                    self.local.held = held;
                    self.acknowledge(layout, stops);
                }
            }
            PollStage::Resuming(resume) => {
                if let Some(resumed) = resume.take(layout, found) {
                    self.at = PollAt::Over;
                    self.resumed(layout, &resumed);
                }
            }
            PollStage::Marking(g, mark) => {
                if mark.take(layout, found).is_some() {
                    let (g, held) = (*g, mark.held);
                    self.at = PollAt::Over;
                    self.local.held = held;
                    self.local.scanned[g as usize] = self.local.view.begun;
                    self.count(layout);
                }
            }
            PollStage::FindRoom(room) => {
                if let Some(held) = room.take(layout, found) {
                    self.at = PollAt::Over;
                    self.local.held = Some(held);
                }
            }
            PollStage::LoadPhase | PollStage::Ended => {}
        }
    }

    /// What it has given: it has ended, or not.
    fn given(&self) -> Option<()>
        ensures { result ≡ given self.now.stage }
    {
        match self.at {
            PollAt::Over => Some(()),
            PollAt::Begins | PollAt::Amid => None,
        }
    }
}

impl Routine for Poll {
    ghost use Rattle.gh_poll.specs.Poll.{listing};

    type Out = ();

    ghost listing = { listing };

    fn next(&self, layout: &Layout) -> Req {
        match self.at {
            PollAt::Begins => return layout.request(Ask::Load(Cell::Phase)),
            PollAt::Over => return layout.request(Ask::Load(Cell::Touch)),
            PollAt::Amid => {}
        }
        match &self.stage {
            PollStage::Giving(give, _) => give.next(layout),
            PollStage::Resuming(resume) => resume.next(layout),
            PollStage::Marking(_, mark) => mark.next(layout),
            PollStage::FindRoom(room) => room.next(layout),
            PollStage::LoadPhase => layout.request(Ask::Load(Cell::Phase)),
            PollStage::Ended => layout.request(Ask::Load(Cell::Touch)),
        }
    }

    fn take(&mut self, layout: &Layout, found: u64) -> Option<()> {
        match self.at {
            PollAt::Begins => self.by_phase(layout, found),
            PollAt::Amid => self.go_on(layout, found),
            PollAt::Over => {}
        }
        self.given()
    }
}
