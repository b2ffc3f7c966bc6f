//! The routine that has each span swept.

ghost use Rattle.std.specs.Prelude.{◌≡◌, ◌<◌, ◌^◌};
ghost use Rattle.gh_base.specs.Packing.{page_of};
ghost use Rattle.gh_coord.specs.SweepingAll.{after_await, after_load, behind_of, given, is_in_sweep, opening};

use gh_base::{Ask, Cell, Layout, PageWord, Req, Routine};
use gh_sweep::{Sweep, SweepEnd};

/// The stages of the sweep of all spans.
#[derive(Clone, Copy)]
pub enum SweepAllStage {
    /// It loads the word of this page.
    LoadPage(u32),
    /// It sweeps the span at this page.
    Sweep(u32, Sweep),
    /// It loads the word of this page until nobody sweeps the span there.
    Await(u32),
    /// It has ended.
    Ended,
}

/// Sees to it that each span is swept before the next cycle, while goroutines run (Go's `sweepone` in the loops of
/// `gcStart` and `gcSweep`, mgc.go, which finish the sweep of the cycle before).
///
/// It goes over the pages in ascending order, without the heap's lock. A span that is unswept it sweeps. Where another
/// has begun to sweep it, it waits until that is done: the counts are whole only once all are swept, and in a span
/// that is not swept the marks of this cycle still stand, which the next one would take for its own. A page that it
/// has passed needs no second look: a span that is laid out later has the sweep generation's number.
#[derive(Clone, Copy)]
pub struct SweepAll {
    /// The sweep generation.
    pub generation: u64,
    /// Where it is.
    pub stage: SweepAllStage,
}

/// What follows behind this page of so many: the next, if there is one.
fn behind(pages: u32, page: u32) -> SweepAllStage
    requires { page < pages }
    ensures { result ≡ behind_of pages page }
{
    if page + 1 < pages {
        SweepAllStage::LoadPage(page + 1)
    } else {
        SweepAllStage::Ended
    }
}

impl SweepAll {
    /// Has each span swept in this sweep generation.
    pub fn new(generation: u64) -> SweepAll
        ensures { result ≡ opening generation }
    {
        SweepAll {
            generation,
            stage: SweepAllStage::LoadPage(0),
        }
    }

    /// By this page word somebody sweeps the span.
    fn is_in_sweep(&self, found: u64) -> bool
        ensures { result ≡ is_in_sweep self.now.generation (page_of found) }
    {
        match PageWord::unpack(found) {
            PageWord::Head(head) => head.number + 1 == self.generation,
            _ => false,
        }
    }

    /// Goes on by what the page word says: the span is unswept, somebody sweeps it, or neither.
    fn after_load(&mut self, layout: &Layout, page: u32, found: u64)
        requires page { page < layout.now.pages }
        requires generation { self.old.generation < 2 ^ 34 }
        ensures { self.new ≡ after_load layout.now self.old page (page_of found) }
    {
        self.stage = match PageWord::unpack(found) {
            PageWord::Head(head) if head.number + 2 == self.generation => {
                SweepAllStage::Sweep(page, Sweep::new(page, head))
            }
            PageWord::Head(head) if head.number + 1 == self.generation => {
                SweepAllStage::Await(page)
            }
            _ => behind(layout.pages, page),
        };
    }

    /// Goes on where somebody swept the span at this page.
    fn after_await(&mut self, layout: &Layout, page: u32, found: u64)
        requires { page < layout.now.pages }
        ensures { self.new ≡ after_await layout.now self.old page (page_of found) }
    {
        self.stage = if self.is_in_sweep(found) {
            SweepAllStage::Await(page)
        } else {
            behind(layout.pages, page)
        };
    }

    /// What it has given.
    fn given(&self) -> Option<()>
        ensures { result ≡ given self.now }
    {
        match self.stage {
            SweepAllStage::Ended => Some(()),
            _ => None,
        }
    }
}

impl Routine for SweepAll {
    ghost use Rattle.gh_coord.specs.SweepingAll.{listing};

    type Out = ();

    ghost listing = { listing };

    fn next(&self, layout: &Layout) -> Req {
        let ask = match &self.stage {
            SweepAllStage::LoadPage(page) | SweepAllStage::Await(page) => {
                Ask::Load(Cell::Page(*page))
            }
            SweepAllStage::Sweep(_, sweep) => return sweep.next(layout),
            SweepAllStage::Ended => Ask::Load(Cell::Touch),
        };
        layout.request(ask)
    }

    fn take(&mut self, layout: &Layout, found: u64) -> Option<()> {
        match &mut self.stage {
            SweepAllStage::LoadPage(page) => {
                let page = *page;
                self.after_load(layout, page, found);
            }
            SweepAllStage::Sweep(page, sweep) => {
                let page = *page;
                match sweep.take(layout, found) {
                    None => {}
                    Some(SweepEnd::Lost) => self.stage = SweepAllStage::Await(page),
                    Some(SweepEnd::Swept(_)) => self.stage = behind(layout.pages, page),
                }
            }
            SweepAllStage::Await(page) => {
                let page = *page;
                self.after_await(layout, page, found);
            }
            SweepAllStage::Ended => {}
        }
        self.given()
    }
}
