//! The routine by which a processor waits for a cycle.

ghost use Rattle.std.specs.Prelude.{◌≡◌, IfSome, IsTrue, None, false, is_some};
ghost use Rattle.gh_base.specs.Cells.{InRange};
ghost use Rattle.gh_base.specs.Steps.{cell_of, request};
ghost use Rattle.gh_base.specs.declared.layout.Layout.{Layout};
ghost use Rattle.gh_poll.specs.Wait.{asks, begins, given, gives, goes, polling, waiting};
ghost use Rattle.gh_poll.specs.Poll.{Polling};
ghost use Rattle.gh_poll.specs.PollSound.{SoundPolling};
ghost use Rattle.gh_poll.specs.WaitSound.{SoundWaiting};

use crate::poll::Poll;
use gh_base::{Ask, Cell, Layout, Req, Routine};

/// The stages of a wait.
#[derive(Clone, Copy)]
pub enum WaitStage {
    /// It asks for a cycle.
    Want,
    /// It polls.
    Polling,
    /// It loads the number of the last swept cycle.
    LoadSwept,
    /// It has ended.
    Ended,
}

/// Waits for a cycle (Go's `GC`, mgc.go, which waits until the cycle after the current one is swept).
///
/// It asks for a cycle, and then it polls and loads the number of the last swept cycle, again and again. It
/// ends once that is greater than the number of the cycle which the processor knew when it began: a cycle
/// that began later is swept then. So what was unreachable before is freed.
///
/// Its polls are those of the processor that waits, which lends its [`Poll`] for each step.
#[derive(Clone, Copy)]
pub struct Wait {
    /// The cycle that the processor knew when it began.
    pub known: u64,
    /// Its stage.
    pub stage: WaitStage,
}

impl Wait {
    /// The processor waits that knows this.
    pub fn begin(poll: &Poll) -> Wait
        ensures { result ≡ begins poll.now }
    {
        Wait {
            known: poll.local.view.begun,
            stage: WaitStage::Want,
        }
    }

    /// The step that it asks for.
    pub fn next(&self, layout: &Layout, poll: &Poll) -> Req
        requires polls { SoundPolling layout.now poll.now }
        requires sound { SoundWaiting poll.now self.now }
        ensures same { result ≡ request layout.now (asks (waiting self.now poll.now)) }
        ensures within { InRange layout.now (cell_of (asks (waiting self.now poll.now))) }
    {
        let ask = match self.stage {
            WaitStage::Want => Ask::Or(Cell::Want, 1),
            WaitStage::Polling => return poll.next(layout),
            WaitStage::LoadSwept => Ask::Load(Cell::Swept),
            WaitStage::Ended => Ask::Load(Cell::Touch),
        };
        layout.request(ask)
    }

    /// The step that found this ends it.
    #[tactic(auto, using(crate::proofs::Waits::polled_none))]
    pub fn ends_by(&self, found: u64) -> bool
        ensures { (l : Layout) → (poll : Polling) → result ≡ is_some (gives l (waiting self.now poll) found) }
    {
        match self.stage {
            WaitStage::LoadSwept => self.known < found,
            _ => false,
        }
    }

    /// It polls next.
    fn polls(&mut self, poll: &mut Poll)
        ensures wait { self.new ≡ (polling (waiting self.old poll.old)).wait }
        ensures poll { poll.new ≡ (polling (waiting self.old poll.old)).poll }
    {
        poll.begin(true);
        self.stage = WaitStage::Polling;
    }

    /// Tells it what that step found. It answers `None` exactly where it asks for a further step.
    pub fn take(&mut self, layout: &Layout, poll: &mut Poll, found: u64) -> Option<()>
        requires polls { SoundPolling layout.now poll.old }
        requires sound { SoundWaiting poll.old self.old }
        ensures wait { self.new ≡ (goes layout.now (waiting self.old poll.old) found).wait }
        ensures poll { poll.new ≡ (goes layout.now (waiting self.old poll.old) found).poll }
        ensures gives { result ≡ gives layout.now (waiting self.old poll.old) found }
        ensures polls { SoundPolling layout.now poll.new }
    {
        match self.stage {
            WaitStage::Polling => {
                if poll.take(layout, found).is_some() {
                    self.stage = WaitStage::LoadSwept;
                }
            }
            WaitStage::LoadSwept if self.known < found => self.stage = WaitStage::Ended,
            WaitStage::Want | WaitStage::LoadSwept | WaitStage::Ended => self.polls(poll),
        }
        self.given()
    }

    /// The cell that its next step loads, where it looks whether the cycle is swept, or its poll looks at the phase.
    #[inline(always)]
    pub fn looks(&self, poll: &Poll) -> Option<Cell>
        ensures asks { IfSome result (λ c. asks (waiting self.now poll.now) ≡ Ask.Load c) }
        ensures within { IfSome result (λ c. (l : Layout) → InRange l c) }
        ensures busy { IfSome result (λ c. given self.now.stage ≡ None) }
    {
        match self.stage {
            WaitStage::LoadSwept => Some(Cell::Swept),
            WaitStage::Polling => poll.looks(),
            WaitStage::Want | WaitStage::Ended => None,
        }
    }

    /// Goes on by such a load, where the cycle is not swept, the poll ends at once, or the stop lasts that it waits in, and
    /// answers whether it did. Most steps of a processor that waits are such, and change a number or nothing; where it did not,
    /// nothing has changed, and [`Wait::take`] makes the step.
    #[inline(always)]
    pub fn goes_on(&mut self, layout: &Layout, poll: &mut Poll, found: u64) -> bool
        requires polls { SoundPolling layout.now poll.old }
        ensures wait { IsTrue result → self.new ≡ (goes layout.now (waiting self.old poll.old) found).wait }
        ensures poll { IsTrue result → poll.new ≡ (goes layout.now (waiting self.old poll.old) found).poll }
        ensures gives { IsTrue result → gives layout.now (waiting self.old poll.old) found ≡ None }
        ensures polls { SoundPolling layout.now poll.new }
        ensures stays { result ≡ false → (self.new ≡ self.old) × (poll.new ≡ poll.old) }
    {
        match self.stage {
            WaitStage::LoadSwept => {
                if self.known < found {
                    return false;
                }
                self.polls(poll);
                true
            }
            WaitStage::Polling => {
                if poll.counts(layout, found) {
                    self.stage = WaitStage::LoadSwept;
                    return true;
                }
                poll.stands(found)
            }
            WaitStage::Want | WaitStage::Ended => false,
        }
    }

    /// What it has given: it has ended, or not.
    fn given(&self) -> Option<()>
        ensures { result ≡ given self.now.stage }
    {
        match self.stage {
            WaitStage::Ended => Some(()),
            _ => None,
        }
    }
}
