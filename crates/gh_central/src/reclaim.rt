//! The freeing of empty spans.

ghost use Rattle.std.specs.Prelude.{◌≡◌, ◌+◌, ◌*◌, ◌^◌, ◌<◌, ◌≤◌, true};
ghost use Rattle.gh_base.specs.Cells.{InRange};
ghost use Rattle.gh_base.specs.Machines.{Runs};
ghost use Rattle.gh_base.specs.Steps.{cell_of};
ghost use Rattle.gh_base.specs.Packing.{FitsHead, FitsPage};
ghost use Rattle.gh_central.specs.Reclaim.{after_bits, after_page, after_sweep, after_wait, asks, body_page, free_from, given, goes_at, is_swept, look_from, opening, unowned, unswept};
ghost use Rattle.gh_central.specs.ReclaimSound.{Sound};
ghost use Rattle.gh_sweep.specs.Listing as sweeping;

use crate::pass::alloc_word;
use gh_base::laws::packed_words_are_read_back;
use gh_base::limits::MOST_PAGES;
use gh_base::{Ask, Cell, Layout, PageWord, Req, Routine, SpanHead, modulo};
use gh_sweep::laws::the_sweep_is_a_routine;
use gh_sweep::{Sweep, SweepEnd};

/// The stages of the freeing of empty spans.
#[derive(Clone, Copy, Debug, PartialEq, Eq)]
pub enum ReclaimStage {
    /// It looks at a page.
    Look {
        /// The page.
        page: u32,
    },
    /// It sweeps the span whose head it met.
    Sweep {
        /// The first page of the span.
        page: u32,
        /// The pages that its head word was found to say, 1 at least.
        pages: u32,
        /// The sweep.
        sweep: Sweep,
    },
    /// It waits until the span at this page is swept: another sweeps it.
    Wait {
        /// The first page of the span.
        page: u32,
    },
    /// It looks for a set bit in the span whose head it met.
    Bits {
        /// The first page of the span.
        page: u32,
        /// The pages that its head word was found to say, 1 at least.
        pages: u32,
        /// Which of the span's alloc words it loads, below 16 times the span's pages.
        word: u32,
    },
    /// It frees a further page of the span.
    Body {
        /// The first page of the span.
        page: u32,
        /// The pages of the span.
        pages: u32,
        /// The page's distance from the first one.
        distance: u32,
    },
    /// It frees the first page of the span.
    Head {
        /// The first page of the span.
        page: u32,
        /// The pages of the span.
        pages: u32,
    },
    /// It has ended.
    Ended,
}

/// Frees the pages of each empty span (Go's `mheap.reclaim`, which ends in `mheap.freeSpan` for each
/// span without an object, in mheap.go and mgcsweep.go). Whoever runs it has the heap's lock.
///
/// The page words are walked from page 0 on, from head to head. A span that a seat owns is passed
/// over. One that nobody owns is swept first, if it is not: by this routine, or, where another has begun
/// to sweep it, it loads the head's word again until that is done. It waits with the lock held, and may,
/// since a sweep takes no lock. An unswept span may not be passed over: it has the objects that the last
/// cycle freed, and `full` would be answered where there is room. Then the alloc words are loaded one
/// after the other until one is not 0. Where all are 0, no slot is taken: 0 is stored in the page words of the span, its bodies
/// first and its head last, so that no page word ever speaks of a head that is not there. A page
/// whose word is 0 is free, and `Carve` of `gh_pages` may take it. It ends behind the last page.
#[derive(Clone, Copy)]
pub struct Reclaim {
    /// The sweep generation.
    pub generation: u64,
    /// Its stage.
    pub stage: ReclaimStage,
}

impl Reclaim {
    /// Looks for empty spans, from page 0 on. A span is swept where its number is this sweep
    /// generation.
    pub fn new(generation: u64) -> Reclaim
        ensures { result ≡ opening generation }
    {
        Reclaim {
            generation,
            stage: ReclaimStage::Look { page: 0 },
        }
    }

    /// The step that it asks for.
    fn ask(&self, layout: &Layout) -> Ask
        requires { Sound layout.now self.now }
        ensures asks { result ≡ asks layout.now self.now }
        ensures within { InRange layout.now (cell_of result) }
    {
        match self.stage {
            ReclaimStage::Look { page } | ReclaimStage::Wait { page } => {
                Ask::Load(Cell::Page(page))
            }
            ReclaimStage::Sweep { sweep, .. } => sweep.ask(layout),
            ReclaimStage::Bits { page, word, .. } => {
                Ask::Load(Cell::Alloc(alloc_word(layout, page, word)))
            }
            ReclaimStage::Body { page, distance, .. } => {
                Ask::Store(Cell::Page(body_page(layout, page, distance)), 0)
            }
            ReclaimStage::Head { page, .. } => Ask::Store(Cell::Page(page), 0),
            ReclaimStage::Ended => Ask::Load(Cell::Touch),
        }
    }

    /// The span is swept.
    fn is_swept(&self, head: &SpanHead) -> bool
        ensures { result ≡ is_swept self.now head.now }
    {
        head.number == self.generation
    }

    /// It sweeps a span that nobody owns and that is not swept, or waits for another's sweep of it.
    fn unswept(&self, page: u32, head: &SpanHead) -> ReclaimStage
        requires { FitsHead head.now }
        ensures { result ≡ unswept self.now page head.now }
    {
        if head.number + 2 == self.generation {
            ReclaimStage::Sweep {
                page,
                pages: head.pages,
                sweep: Sweep::new(page, *head),
            }
        } else {
            // Another sweeps it. It may be empty then, so it is not passed over.
            ReclaimStage::Wait { page }
        }
    }

    /// Its stage after it met the head of a span that nobody owns.
    fn unowned(&self, page: u32, head: &SpanHead) -> ReclaimStage
        requires { FitsHead head.now }
        ensures { result ≡ unowned self.now page head.now }
    {
        if self.is_swept(head) {
            look_into(page, head.pages)
        } else {
            self.unswept(page, head)
        }
    }

    /// Its stage after a page was found to be this.
    fn after_page(&self, layout: &Layout, page: u32, found: PageWord) -> ReclaimStage
        requires page { page < layout.now.pages }
        requires fits { FitsPage found }
        ensures { result ≡ after_page layout.now self.now page found }
    {
        match found {
            PageWord::Head(head) => {
                if head.owner == 0 {
                    self.unowned(page, &head)
                } else {
                    look_from(layout, page + head.pages)
                }
            }
            PageWord::Free | PageWord::Body(_) => look_from(layout, page + 1),
        }
    }

    /// Its stage after it waited and the page was found to be this.
    fn after_wait(&self, page: u32, found: PageWord) -> ReclaimStage
        ensures { result ≡ after_wait self.now page found }
    {
        match found {
            PageWord::Head(head) if self.is_swept(&head) => look_into(page, head.pages),
            _ => ReclaimStage::Wait { page },
        }
    }

    /// Its stage after its step found this.
    fn go(&self, layout: &Layout, found: u64) -> ReclaimStage
        requires { Sound layout.now self.now }
        ensures { result ≡ goes_at layout.now self.now self.now.stage found }
    {
        match self.stage {
            ReclaimStage::Look { page } => self.after_page(layout, page, PageWord::unpack(found)),
            ReclaimStage::Sweep { page, pages, sweep } => swept_on(
                layout, page, pages, sweep, found,
            ),
            ReclaimStage::Wait { page } => self.after_wait(page, PageWord::unpack(found)),
            ReclaimStage::Bits { page, pages, word } => after_bits(
                layout, page, pages, word, found,
            ),
            ReclaimStage::Body {
                page,
                pages,
                distance,
            } => free_from(page, pages, distance + 1),
            ReclaimStage::Head { page, pages } => look_from(layout, page + pages),
            ReclaimStage::Ended => ReclaimStage::Ended,
        }
    }

    /// What it has given.
    fn given(&self) -> Option<()>
        ensures { result ≡ given self.now }
    {
        match self.stage {
            ReclaimStage::Ended => Some(()),
            _ => None,
        }
    }
}

/// The page at this distance from the first page of a span.
fn body_page(layout: &Layout, page: u32, distance: u32) -> u32
    requires page { page < MOST_PAGES }
    requires distance { distance < 2 ^ 13 }
    ensures is { result ≡ body_page layout.now page distance }
    ensures within { result < layout.now.pages }
{
    modulo(page + distance, layout.pages)
}

/// It looks at this page next, if there is one.
fn look_from(layout: &Layout, page: u32) -> ReclaimStage
    ensures { result ≡ look_from layout.now page }
{
    if page < layout.pages {
        ReclaimStage::Look { page }
    } else {
        ReclaimStage::Ended
    }
}

/// It looks into the swept span at this page.
fn look_into(page: u32, pages: u32) -> ReclaimStage
    ensures { result ≡ ReclaimStage.Bits page pages 0 }
{
    ReclaimStage::Bits {
        page,
        pages,
        word: 0,
    }
}

/// Its stage after an alloc word of the span was found to be this.
fn after_bits(layout: &Layout, page: u32, pages: u32, word: u32, found: u64) -> ReclaimStage
    requires page { page < MOST_PAGES }
    requires pages { pages < 2 ^ 13 }
    requires word { word < 16 * pages }
    ensures { result ≡ after_bits layout.now page pages word found }
{
    if found != 0 {
        look_from(layout, page + pages)
    } else if word + 1 < 16 * pages {
        ReclaimStage::Bits {
            page,
            pages,
            word: word + 1,
        }
    } else {
        free_from(page, pages, 1)
    }
}

/// Its stage after the next step of the sweep found this: a span that it has swept is looked into, and one that
/// another has begun to sweep is waited for.
fn swept_on(layout: &Layout, page: u32, pages: u32, sweep: Sweep, found: u64) -> ReclaimStage
    requires { Runs (sweeping.listing layout.now) sweep }
    ensures { result ≡ after_sweep page pages (sweeping.goes sweep found) (sweeping.gives sweep found) }
{
    let mut sweep = sweep;
    match sweep.take(layout, found) {
        None => ReclaimStage::Sweep { page, pages, sweep },
        Some(SweepEnd::Lost) => ReclaimStage::Wait { page },
        Some(SweepEnd::Swept(_)) => look_into(page, pages),
    }
}

/// It frees the page at this distance next; behind the last one, the first page.
fn free_from(page: u32, pages: u32, distance: u32) -> ReclaimStage
    ensures { result ≡ free_from page pages distance }
{
    if distance < pages {
        ReclaimStage::Body {
            page,
            pages,
            distance,
        }
    } else {
        ReclaimStage::Head { page, pages }
    }
}

impl Routine for Reclaim {
    ghost use Rattle.gh_central.specs.Reclaim.{listing};

    type Out = ();

    ghost listing = { listing };

    fn next(&self, layout: &Layout) -> Req {
        layout.request(self.ask(layout))
    }

    #[tactic(auto, using(crate::proofs::Reclaiming::Sound::keeps_at))]
    fn take(&mut self, layout: &Layout, found: u64) -> Option<()> {
        packed_words_are_read_back();
        the_sweep_is_a_routine();
        self.stage = self.go(layout, found);
        self.given()
    }
}
