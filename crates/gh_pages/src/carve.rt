//! The routine that looks for the pages of a span and writes their page words.

ghost use Rattle.std.specs.Prelude.{◌≡◌, ◌+◌, ◌^◌, ◌<◌, ◌≤◌, IfSome, IsTrue, None, false};
ghost use Rattle.gh_base.specs.declared.cell.Ask.TheVariants.{Load};
ghost use Rattle.gh_base.specs.declared.layout.Layout.{Layout};
ghost use Rattle.gh_base.specs.Cells.{InRange};
ghost use Rattle.gh_base.specs.Steps.{cell_of};
ghost use Rattle.gh_base.specs.Packing.{body_word, head_word};
ghost use Rattle.gh_pages.specs.Listing.{after_look, asks, fresh_body, fresh_head, given, goes, goes_at, is_last_page, looks_on_at, next_store, opening, row_after};
ghost use Rattle.gh_pages.specs.Sound.{FitsSpan, Sound};

use gh_base::{Ask, Cell, Layout, PageWord, Req, Routine, SpanBody, SpanHead};
use gh_class::SizeClass;

/// What a span is cut for.
#[derive(Clone, Copy, Debug, PartialEq, Eq)]
pub struct Span {
    /// The size class of its objects.
    pub class: SizeClass,
    /// That its objects have no pointer fields.
    pub noscan: bool,
    /// Its pages, 1 to `MOST_SPAN_PAGES`.
    pub pages: u32,
}

/// The stages of the routine.
#[derive(Clone, Copy, Debug, PartialEq, Eq)]
pub enum CarveStage {
    /// It looks at a page; so many free ones stand in a row right before it.
    Look {
        /// The page.
        page: u32,
        /// The free pages before it, fewer than the span needs.
        run: u32,
    },
    /// It writes the word of a further page of the span.
    Body {
        /// The first page of the span.
        first: u32,
        /// How many pages behind the first one, 1 at least.
        distance: u32,
    },
    /// It writes the word of the first page of the span.
    Head {
        /// That page.
        first: u32,
    },
    /// It has ended.
    Ended {
        /// The first page of the span, if a row of free pages was long enough.
        taken: Option<u32>,
    },
}

/// Takes fresh pages for a span, first fit (Go's `mheap.alloc` over `pageAlloc.find`, in mheap.go
/// and mpagealloc.go). Whoever runs it has the heap's lock.
///
/// It loads the page words from page 0 on, until as many free pages stand in a row as the span
/// needs. It then writes their words, the head last: until that word is there nobody takes these
/// pages for a span. It ends with the first page, or with `None` where no row of free pages is
/// long enough.
#[derive(Clone, Copy)]
pub struct Carve {
    /// The seat that the span will be cached by.
    pub seat: u32,
    /// The sweep generation, in which the span counts as swept.
    pub generation: u64,
    /// What the pages are for.
    pub span: Span,
    /// Its stage.
    pub stage: CarveStage,
}

/// No page of the arena lies behind this one.
fn is_last(layout: &Layout, page: u32) -> bool
    requires { page + 1 < 2 ^ 32 }
    ensures { result ≡ is_last_page layout.now page }
{
    page + 1 >= layout.pages
}

/// So many free pages stand in a row up to the page whose word was found.
fn row_after(run: u32, found: u64) -> u32
    requires { run + 1 < 2 ^ 32 }
    ensures { result ≡ row_after run found }
{
    match PageWord::unpack(found) {
        PageWord::Free => run + 1,
        _ => 0,
    }
}

impl Span {
    /// The store that follows those of the pages up to this distance behind the first: the next
    /// page's, and last the first page's.
    fn next_store(&self, first: u32, distance: u32) -> CarveStage
        requires { distance + 1 < 2 ^ 32 }
        ensures { result ≡ next_store self.now first distance }
    {
        if distance + 1 < self.pages {
            CarveStage::Body {
                first,
                distance: distance + 1,
            }
        } else {
            CarveStage::Head { first }
        }
    }
}

impl Carve {
    /// Looks for pages for the span, from page 0 on. The head word will say that the seat has the
    /// span cached, and that it is swept in this sweep generation.
    pub fn new(seat: u32, generation: u64, span: Span) -> Carve
        ensures { result ≡ opening seat generation span }
    {
        Carve {
            seat,
            generation,
            span,
            stage: CarveStage::Look { page: 0, run: 0 },
        }
    }

    /// The word of the span's first page.
    fn head_word(&self) -> u64
        requires seat { self.now.seat + 1 < 2 ^ 8 }
        requires generation { self.now.generation < 2 ^ 34 }
        requires span { FitsSpan self.now.span }
        ensures { result ≡ head_word (fresh_head self.now) }
    {
        PageWord::Head(SpanHead {
            class: self.span.class,
            noscan: self.span.noscan,
            pages: self.span.pages,
            owner: self.seat + 1,
            number: self.generation,
        })
        .pack()
    }

    /// The word of the page at this distance behind the span's first.
    fn body_word(&self, distance: u32) -> u64
        requires some { 1 ≤ distance }
        requires few { distance < 2 ^ 13 }
        requires span { FitsSpan self.now.span }
        ensures { result ≡ body_word (fresh_body self.now distance) }
    {
        PageWord::Body(SpanBody {
            class: self.span.class,
            noscan: self.span.noscan,
            distance,
        })
        .pack()
    }

    /// The step that it asks for.
    fn ask(&self, layout: &Layout) -> Ask
        requires { Sound layout.now self.now }
        ensures asks { result ≡ asks self.now }
        ensures within { InRange layout.now (cell_of result) }
    {
        match self.stage {
            CarveStage::Look { page, .. } => Ask::Load(Cell::Page(page)),
            CarveStage::Body { first, distance } => {
                Ask::Store(Cell::Page(first + distance), self.body_word(distance))
            }
            CarveStage::Head { first } => Ask::Store(Cell::Page(first), self.head_word()),
            CarveStage::Ended { .. } => Ask::Load(Cell::Touch),
        }
    }

    /// Its stage after the page was looked at, with so many free ones in a row up to it.
    fn after_look(&self, layout: &Layout, page: u32, row: u32) -> CarveStage
        requires few { row ≤ page + 1 }
        requires page { page + 1 < 2 ^ 32 }
        ensures { result ≡ after_look layout.now self.now page row }
    {
        if row == self.span.pages {
            self.span.next_store(page + 1 - row, 0)
        } else if is_last(layout, page) {
            CarveStage::Ended { taken: None }
        } else {
            CarveStage::Look {
                page: page + 1,
                run: row,
            }
        }
    }

    /// The cell that its next step loads, where it looks at a page.
    #[inline(always)]
    pub fn looks(&self) -> Option<Cell>
        ensures asks { IfSome result (λ c. asks self.now ≡ Load c) }
        ensures within { (l : Layout) → Sound l self.now → IfSome result (InRange l) }
    {
        match self.stage {
            CarveStage::Look { page, .. } => Some(Cell::Page(page)),
            _ => None,
        }
    }

    /// Goes on to the next page, where the word found leads there, and answers whether it did. It changes two numbers
    /// then; where it did not, nothing has changed, and [`take`](Routine::take) makes the step.
    #[inline(always)]
    pub fn goes_on(&mut self, layout: &Layout, found: u64) -> bool
        requires { Sound layout.now self.old }
        ensures exactly { result ≡ looks_on_at layout.now self.old self.old.stage found }
        ensures goes { IsTrue result → self.new ≡ goes layout.now self.old found }
        ensures gives { IsTrue result → given (goes layout.now self.old found) ≡ None }
        ensures stays { result ≡ false → self.new ≡ self.old }
    {
        let CarveStage::Look { page, run } = self.stage else {
            return false;
        };
        let row = row_after(run, found);
        if row == self.span.pages || is_last(layout, page) {
            return false;
        }
        if let CarveStage::Look { page, run } = &mut self.stage {
            *page += 1;
            *run = row;
        }
        true
    }

    /// Its stage after its step found this.
    fn go(&self, layout: &Layout, found: u64) -> CarveStage
        requires { Sound layout.now self.now }
        ensures { result ≡ goes_at layout.now self.now self.now.stage found }
    {
        match self.stage {
            CarveStage::Look { page, run } => self.after_look(layout, page, row_after(run, found)),
            CarveStage::Body { first, distance } => self.span.next_store(first, distance),
            CarveStage::Head { first } => CarveStage::Ended { taken: Some(first) },
            CarveStage::Ended { taken } => CarveStage::Ended { taken },
        }
    }

    /// What it has given.
    fn given(&self) -> Option<Option<u32>>
        ensures { result ≡ given self.now }
    {
        match self.stage {
            CarveStage::Ended { taken } => Some(taken),
            _ => None,
        }
    }
}

impl Routine for Carve {
    ghost use Rattle.gh_pages.specs.Listing.{listing};

    type Out = Option<u32>;

    ghost listing = { listing };

    fn next(&self, layout: &Layout) -> Req {
        layout.request(self.ask(layout))
    }

    #[tactic(auto, using(std::proofs::lemmas::Bool::Decides::nat_tests))]
    fn take(&mut self, layout: &Layout, found: u64) -> Option<Option<u32>> {
        self.stage = self.go(layout, found);
        self.given()
    }
}
