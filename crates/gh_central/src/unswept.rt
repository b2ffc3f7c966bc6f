//! The pass over the spans for one that is not swept, and has room once it is.

ghost use Rattle.std.specs.Prelude.{◌≡◌, ◌+◌, ◌^◌, ◌<◌, IfSome, IsTrue, None, false, true};
ghost use Rattle.gh_base.specs.declared.cell.Ask.TheVariants.{Load};
ghost use Rattle.gh_base.specs.declared.layout.Layout.{Layout};
ghost use Rattle.gh_base.specs.Cells.{InRange};
ghost use Rattle.gh_base.specs.Machines.{Runs};
ghost use Rattle.gh_base.specs.Steps.{cell_of};
ghost use Rattle.gh_base.specs.Packing.{FitsHead, FitsPage, head_word};
ghost use Rattle.gh_central.specs.SweptPass.{owned_by};
ghost use Rattle.gh_central.specs.UnsweptPass.{after_page, after_sweep, asks, given, goes, goes_at, is_unswept, look_from, looks, looks_on_at, opening};
ghost use Rattle.gh_central.specs.UnsweptSound.{Sound};
ghost use Rattle.gh_sweep.specs.Listing as sweeping;
ghost use Rattle.gh_sweep.specs.Listing.{once_swept};
ghost use Rattle.gh_sweep.specs.Sound.{FitsSweep};

use gh_base::laws::packed_words_are_read_back;
use gh_base::{Ask, Cell, Layout, PageWord, Req, Routine, SpanHead};
use gh_class::{SizeClass, SpanClass};
use gh_sweep::laws::the_sweep_is_a_routine;
use gh_sweep::{Sweep, SweepEnd};

/// The stages of the pass.
#[derive(Clone, Copy, Debug, PartialEq, Eq)]
pub enum UnsweptStage {
    /// It looks at a page.
    Look {
        /// The page.
        page: u32,
    },
    /// It sweeps the span whose head it met.
    Sweep {
        /// The first page of the span.
        page: u32,
        /// What its head word was found to say.
        head: SpanHead,
        /// The sweep.
        sweep: Sweep,
    },
    /// It takes the span.
    Take {
        /// The first page of the span.
        page: u32,
        /// What its head word says, now that it is swept.
        head: SpanHead,
    },
    /// It has ended.
    Ended {
        /// The first page of the span that it took, if it took one.
        taken: Option<u32>,
    },
}

/// Looks for an unswept span of a span class, sweeps it, and takes it for a seat where a slot is clear then (Go's
/// `mcentral.cacheSpan` where it takes from `partialUnswept` and `fullUnswept`, in mcentral.go). Whoever runs it has
/// the heap's lock.
///
/// The page words are walked from page 0 on, from head to head. A span of the class that is not swept it
/// sweeps, and the sweep's own counts say whether a slot is clear: no word is loaded for it. The span is
/// taken at once then, with the lock held all the while, so that nobody takes it in between. A span without
/// a clear slot, and one that another has begun to sweep meanwhile, is gone past: it is swept, or will be,
/// and the next pass over swept spans meets it. It ends with `None` behind the last page.
#[derive(Clone, Copy)]
pub struct UnsweptPass {
    /// The seat that looks.
    pub seat: u32,
    /// The sweep generation.
    pub generation: u64,
    /// The span class that is wanted.
    pub wanted: SpanClass,
    /// Its stage.
    pub stage: UnsweptStage,
}

/// It looks at this page next, if there is one.
fn look_from(layout: &Layout, page: u32) -> UnsweptStage
    ensures { result ≡ look_from layout.now page }
{
    if page < layout.pages {
        UnsweptStage::Look { page }
    } else {
        UnsweptStage::Ended { taken: None }
    }
}

/// Its stage after the next step of the sweep found this.
fn swept_on(layout: &Layout, page: u32, head: SpanHead, sweep: Sweep, found: u64) -> UnsweptStage
    requires page { page < layout.now.pages }
    requires head { FitsSweep head }
    requires sweep { Runs (sweeping.listing layout.now) sweep }
    ensures { result ≡ after_sweep layout.now page head (sweeping.goes sweep found) (sweeping.gives sweep found) }
{
    let mut sweep = sweep;
    match sweep.take(layout, found) {
        None => UnsweptStage::Sweep { page, head, sweep },
        Some(SweepEnd::Swept(span)) if span.clear => UnsweptStage::Take {
            page,
            head: once_swept(head),
        },
        // Full, or another's sweep: it is met once. Where no span will do, `Reclaim` sees each swept.
        Some(_) => look_from(layout, page + head.pages),
    }
}

impl UnsweptPass {
    /// Looks for a span of the class, from page 0 on. A span is unswept where its number is 2 below this sweep
    /// generation. The head word of the one that it takes will say that the seat has it cached.
    pub fn new(seat: u32, generation: u64, wanted: SpanClass) -> UnsweptPass
        ensures { result ≡ opening seat generation wanted }
    {
        UnsweptPass {
            seat,
            generation,
            wanted,
            stage: UnsweptStage::Look { page: 0 },
        }
    }

    /// The head is that of an unswept span of the wanted class.
    fn is_unswept(&self, head: &SpanHead) -> bool
        requires { FitsHead head.now }
        ensures { result ≡ is_unswept self.now head.now }
    {
        head.class == SizeClass::Small(self.wanted.class)
            && head.noscan == self.wanted.noscan
            && head.number + 2 == self.generation
    }

    /// The head word of a span that it takes.
    fn taken_word(&self, head: SpanHead) -> u64
        requires seat { self.now.seat + 1 < 2 ^ 8 }
        requires head { FitsHead head }
        ensures { result ≡ head_word (owned_by (self.now.seat + 1) head) }
    {
        PageWord::Head(SpanHead {
            owner: self.seat + 1,
            ..head
        })
        .pack()
    }

    /// The step that it asks for.
    fn ask(&self, layout: &Layout) -> Ask
        requires { Sound layout.now self.now }
        ensures asks { result ≡ asks layout.now self.now }
        ensures within { InRange layout.now (cell_of result) }
    {
        match self.stage {
            UnsweptStage::Look { page } => Ask::Load(Cell::Page(page)),
            UnsweptStage::Sweep { sweep, .. } => sweep.ask(layout),
            UnsweptStage::Take { page, head } => {
                Ask::Store(Cell::Page(page), self.taken_word(head))
            }
            UnsweptStage::Ended { .. } => Ask::Load(Cell::Touch),
        }
    }

    /// Its stage after a page was found to be this.
    fn after_page(&self, layout: &Layout, page: u32, found: PageWord) -> UnsweptStage
        requires page { page < layout.now.pages }
        requires fits { FitsPage found }
        ensures { result ≡ after_page layout.now self.now page found }
    {
        match found {
            PageWord::Head(head) => {
                if self.is_unswept(&head) {
                    UnsweptStage::Sweep {
                        page,
                        head,
                        sweep: Sweep::new(page, head),
                    }
                } else {
                    look_from(layout, page + head.pages)
                }
            }
            PageWord::Free | PageWord::Body(_) => look_from(layout, page + 1),
        }
    }

    /// The cell that its next step loads, where it looks at a page.
    #[inline(always)]
    pub fn looks(&self) -> Option<Cell>
        ensures asks { IfSome result (λ c. (l : Layout) → asks l self.now ≡ Load c) }
        ensures within { (l : Layout) → Sound l self.now → IfSome result (InRange l) }
    {
        match self.stage {
            UnsweptStage::Look { page } => Some(Cell::Page(page)),
            _ => None,
        }
    }

    /// The page behind the span or the page, where the page was found to be this; `None` for a span that it sweeps.
    #[inline(always)]
    fn next_page(&self, layout: &Layout, page: u32, found: PageWord) -> Option<u32>
        requires page { page < layout.now.pages }
        requires fits { FitsPage found }
        ensures looks { IfSome result (λ next. after_page layout.now self.now page found ≡ look_from layout.now next) }
        ensures sweeps { result ≡ None → looks (after_page layout.now self.now page found) ≡ false }
    {
        match found {
            PageWord::Head(head) => {
                if self.is_unswept(&head) {
                    None
                } else {
                    Some(page + head.pages)
                }
            }
            PageWord::Free | PageWord::Body(_) => Some(page + 1),
        }
    }

    /// Goes on to a further page, where the word found leads there, and answers whether it did: behind a span that it
    /// does not sweep, or behind a page that is no head. It changes one number then; where it did not, nothing has
    /// changed, and [`take`](Routine::take) makes the step.
    #[inline(always)]
    pub fn goes_on(&mut self, layout: &Layout, found: u64) -> bool
        requires { Sound layout.now self.old }
        ensures exactly { result ≡ looks_on_at layout.now self.old self.old.stage found }
        ensures goes { IsTrue result → self.new ≡ goes layout.now self.old found }
        ensures gives { IsTrue result → given (goes layout.now self.old found) ≡ None }
        ensures stays { result ≡ false → self.new ≡ self.old }
    {
        let UnsweptStage::Look { page } = self.stage else {
            return false;
        };
        let Some(next) = self.next_page(layout, page, PageWord::unpack(found)) else {
            return false;
        };
        if next >= layout.pages {
            return false;
        }
        // The page alone is written: the stage has room for a sweep.
        if let UnsweptStage::Look { page } = &mut self.stage {
            *page = next;
        }
        true
    }

    /// Its stage after its step found this.
    fn go(&self, layout: &Layout, found: u64) -> UnsweptStage
        requires { Sound layout.now self.now }
        ensures { result ≡ goes_at layout.now self.now self.now.stage found }
    {
        match self.stage {
            UnsweptStage::Look { page } => self.after_page(layout, page, PageWord::unpack(found)),
            UnsweptStage::Sweep { page, head, sweep } => swept_on(layout, page, head, sweep, found),
            UnsweptStage::Take { page, .. } => UnsweptStage::Ended { taken: Some(page) },
            UnsweptStage::Ended { taken } => UnsweptStage::Ended { taken },
        }
    }

    /// What it has given.
    fn given(&self) -> Option<Option<u32>>
        ensures { result ≡ given self.now }
    {
        match self.stage {
            UnsweptStage::Ended { taken } => Some(taken),
            _ => None,
        }
    }
}

/// The head of the span once it is swept.
fn once_swept(head: SpanHead) -> SpanHead
    requires { FitsSweep head }
    ensures { result ≡ once_swept head }
{
    SpanHead {
        owner: 0,
        number: head.number + 2,
        ..head
    }
}

impl Routine for UnsweptPass {
    ghost use Rattle.gh_central.specs.UnsweptPass.{listing};

    type Out = Option<u32>;

    ghost listing = { listing };

    fn next(&self, layout: &Layout) -> Req {
        layout.request(self.ask(layout))
    }

    #[tactic(auto, using(crate::proofs::Sweeping::Sound::keeps_at))]
    fn take(&mut self, layout: &Layout, found: u64) -> Option<Option<u32>> {
        packed_words_are_read_back();
        the_sweep_is_a_routine();
        self.stage = self.go(layout, found);
        self.given()
    }
}
