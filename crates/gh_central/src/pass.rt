//! The pass over the spans for one with a clear slot.

ghost use Rattle.std.specs.Prelude.{◌≡◌, ◌+◌, ◌*◌, ◌^◌, ◌<◌, IfSome, IsTrue, None, false};
ghost use Rattle.gh_base.specs.declared.cell.Ask.TheVariants.{Load};
ghost use Rattle.gh_central.specs.declared.pass.PassStage.TheVariants.{Bits, Look};
ghost use Rattle.gh_base.specs.Cells.{InRange};
ghost use Rattle.gh_base.specs.Steps.{cell_of};
ghost use Rattle.gh_base.specs.Packing.{FitsHead, FitsPage, head_word};
ghost use Rattle.gh_central.specs.SweptPass.{Sound, after_bits, after_page, alloc_word, asks, given, goes, goes_at, goes_on_at, is_wanted, lacks_at, look_from, looks, opening, owned_by};

use crate::slots::{lacks_slot, none_clear};
use gh_base::laws::packed_words_are_read_back;
use gh_base::limits::MOST_PAGES;
use gh_base::{Ask, Cell, Layout, PageWord, Req, Routine, SpanHead, modulo};
use gh_class::{SizeClass, SpanClass};

/// The stages of the pass.
#[derive(Clone, Copy, Debug, PartialEq, Eq)]
pub enum PassStage {
    /// It looks at a page.
    Look {
        /// The page.
        page: u32,
    },
    /// It looks for a clear slot in the span whose head it met.
    Bits {
        /// The first page of the span.
        page: u32,
        /// What its head word was found to say.
        head: SpanHead,
        /// Which of the span's alloc words it loads, below 16 times the span's pages.
        word: u32,
    },
    /// It takes the span.
    Take {
        /// The first page of the span.
        page: u32,
        /// What its head word was found to say.
        head: SpanHead,
    },
    /// It has ended.
    Ended {
        /// The first page of the span that it took, if it took one.
        taken: Option<u32>,
    },
}

/// Looks for a swept span of a span class that nobody has cached and that has a clear slot, and
/// takes it for a seat (Go's `mcentral.cacheSpan` where it takes from `partialSwept`, in
/// mcentral.go). Whoever runs it has the heap's lock.
///
/// There are no lists: the page words are walked from page 0 on, from head to head. Of a span of
/// the class the alloc words are loaded one after the other until one lacks a slot's bit. The
/// first span that has such a word is taken: its head word is written with the seat as its owner,
/// and the pass ends with its first page. It ends with `None` behind the last page.
#[derive(Clone, Copy)]
pub struct SweptPass {
    /// The seat that looks.
    pub seat: u32,
    /// The sweep generation.
    pub generation: u64,
    /// The span class that is wanted.
    pub wanted: SpanClass,
    /// Its stage.
    pub stage: PassStage,
}

/// Where alloc word `word` of the span at this page is loaded.
pub(crate) fn alloc_word(layout: &Layout, page: u32, word: u32) -> u32
    requires page { page < MOST_PAGES }
    requires word { word < 2 ^ 17 }
    ensures is { result ≡ alloc_word layout.now page word }
    ensures within { result < 16 * layout.now.pages }
{
    modulo(16 * page + word, 16 * layout.pages)
}

/// It looks at this page next, if there is one.
fn look_from(layout: &Layout, page: u32) -> PassStage
    ensures { result ≡ look_from layout.now page }
{
    if page < layout.pages {
        PassStage::Look { page }
    } else {
        PassStage::Ended { taken: None }
    }
}

impl SweptPass {
    /// Looks for a span of the class, from page 0 on. A span is swept where its number is this sweep
    /// generation. The head word of the one that it takes will say that the seat has it cached.
    pub fn new(seat: u32, generation: u64, wanted: SpanClass) -> SweptPass
        ensures { result ≡ opening seat generation wanted }
    {
        SweptPass {
            seat,
            generation,
            wanted,
            stage: PassStage::Look { page: 0 },
        }
    }

    /// The head is that of a swept span of the wanted class that nobody owns.
    fn is_wanted(&self, head: &SpanHead) -> bool
        ensures { result ≡ is_wanted self.now head.now }
    {
        head.class == SizeClass::Small(self.wanted.class)
            && head.noscan == self.wanted.noscan
            && head.owner == 0
            && head.number == self.generation
    }

    /// Alloc word `word` of the span at this page lacks a slot's bit.
    fn lacks(&self, page: u32, word: u32, found: u64) -> bool
        requires page { page < MOST_PAGES }
        requires word { word < 2 ^ 17 }
        ensures { result ≡ lacks_at self.now page word found }
    {
        let slot = self.wanted.class.slot_words();
        if none_clear(slot, 64 * word, found) {
            return false;
        }
        let slots = self.wanted.class.slots();
        lacks_slot(slot, slots, 1024 * page, 16 * page + word, found)
    }

    /// The head word of a span that it takes.
    fn taken_word(&self, head: SpanHead) -> u64
        requires seat { self.now.seat + 1 < 2 ^ 8 }
        requires head { FitsHead head }
        ensures { result ≡ head_word (owned_by (self.now.seat + 1) head) }
    {
        PageWord::Head(SpanHead {
            owner: self.seat + 1,
            ..head
        })
        .pack()
    }

    /// The step that it asks for.
    fn ask(&self, layout: &Layout) -> Ask
        requires { Sound layout.now self.now }
        ensures asks { result ≡ asks layout.now self.now }
        ensures within { InRange layout.now (cell_of result) }
    {
        match self.stage {
            PassStage::Look { page } => Ask::Load(Cell::Page(page)),
            PassStage::Bits { page, word, .. } => {
                Ask::Load(Cell::Alloc(alloc_word(layout, page, word)))
            }
            PassStage::Take { page, head } => Ask::Store(Cell::Page(page), self.taken_word(head)),
            PassStage::Ended { .. } => Ask::Load(Cell::Touch),
        }
    }

    /// Its stage after a page was found to be this.
    fn after_page(&self, layout: &Layout, page: u32, found: PageWord) -> PassStage
        requires page { page < MOST_PAGES }
        requires fits { FitsPage found }
        ensures { result ≡ after_page layout.now self.now page found }
    {
        match found {
            PageWord::Head(head) => {
                if self.is_wanted(&head) {
                    PassStage::Bits {
                        page,
                        head,
                        word: 0,
                    }
                } else {
                    look_from(layout, page + head.pages)
                }
            }
            PageWord::Free | PageWord::Body(_) => look_from(layout, page + 1),
        }
    }

    /// Its stage after an alloc word of the span was found to be this.
    fn after_bits(
        &self,
        layout: &Layout,
        page: u32,
        head: SpanHead,
        word: u32,
        found: u64,
    ) -> PassStage
        requires page { page < MOST_PAGES }
        requires fits { FitsHead head }
        requires word { word < 16 * head.pages }
        ensures { result ≡ after_bits layout.now self.now page head word found }
    {
        if self.lacks(page, word, found) {
            PassStage::Take { page, head }
        } else if word + 1 < 16 * head.pages {
            PassStage::Bits {
                page,
                head,
                word: word + 1,
            }
        } else {
            look_from(layout, page + head.pages)
        }
    }

    /// The cell that its next step loads, where it looks at a page or at the slots of a span.
    #[inline(always)]
    pub fn looks(&self, layout: &Layout) -> Option<Cell>
        requires { Sound layout.now self.now }
        ensures asks { IfSome result (λ c. asks layout.now self.now ≡ Load c) }
        ensures within { IfSome result (InRange layout.now) }
    {
        match self.stage {
            PassStage::Look { page } => Some(Cell::Page(page)),
            PassStage::Bits { page, word, .. } => Some(Cell::Alloc(alloc_word(layout, page, word))),
            _ => None,
        }
    }

    /// The page behind the span or the page, where the page was found to be this; `None` for a span that it looks into.
    #[inline(always)]
    fn next_page(&self, layout: &Layout, page: u32, found: PageWord) -> Option<u32>
        requires page { page < layout.now.pages }
        requires fits { FitsPage found }
        ensures looks { IfSome result (λ next. after_page layout.now self.now page found ≡ look_from layout.now next) }
        ensures into { result ≡ None → looks (after_page layout.now self.now page found) ≡ false }
    {
        match found {
            PageWord::Head(head) => {
                if self.is_wanted(&head) {
                    None
                } else {
                    Some(page + head.pages)
                }
            }
            PageWord::Free | PageWord::Body(_) => Some(page + 1),
        }
    }

    /// Goes on to a further page, or to the span's next alloc word, where the word found leads there, and answers whether it did. Of
    /// all steps of a pass most do, and they change one number; where it did not, nothing has changed, and
    /// [`take`](Routine::take) makes the step.
    #[inline(always)]
    pub fn goes_on(&mut self, layout: &Layout, found: u64) -> bool
        requires { Sound layout.now self.old }
        ensures exactly { result ≡ goes_on_at layout.now self.old self.old.stage found }
        ensures goes { IsTrue result → self.new ≡ goes layout.now self.old found }
        ensures gives { IsTrue result → given (goes layout.now self.old found) ≡ None }
        ensures stays { result ≡ false → self.new ≡ self.old }
    {
        match self.stage {
            PassStage::Look { page } => self.looks_on(layout, page, found),
            PassStage::Bits { page, head, word } => self.reads_on(layout, page, head, word, found),
            _ => false,
        }
    }

    /// Goes on from this page to a further one, where the word found leads there.
    #[inline(always)]
    fn looks_on(&mut self, layout: &Layout, page: u32, found: u64) -> bool
        requires sound { Sound layout.now self.old }
        requires stage { self.old.stage ≡ Look page }
        ensures exactly { result ≡ goes_on_at layout.now self.old self.old.stage found }
        ensures goes { IsTrue result → self.new ≡ goes layout.now self.old found }
        ensures gives { IsTrue result → given (goes layout.now self.old found) ≡ None }
        ensures stays { result ≡ false → self.new ≡ self.old }
    {
        packed_words_are_read_back();
        let Some(next) = self.next_page(layout, page, PageWord::unpack(found)) else {
            return false;
        };
        if next >= layout.pages {
            return false;
        }
        self.stage = PassStage::Look { page: next };
        true
    }

    /// Goes on from this alloc word of a span to its next, where the word found leads there.
    #[inline(always)]
    fn reads_on(
        &mut self,
        layout: &Layout,
        page: u32,
        head: SpanHead,
        word: u32,
        found: u64,
    ) -> bool
        requires sound { Sound layout.now self.old }
        requires stage { self.old.stage ≡ Bits page head word }
        ensures exactly { result ≡ goes_on_at layout.now self.old self.old.stage found }
        ensures goes { IsTrue result → self.new ≡ goes layout.now self.old found }
        ensures gives { IsTrue result → given (goes layout.now self.old found) ≡ None }
        ensures stays { result ≡ false → self.new ≡ self.old }
    {
        if word + 1 >= 16 * head.pages || self.lacks(page, word, found) {
            return false;
        }
        if let PassStage::Bits { word, .. } = &mut self.stage {
            *word += 1;
        }
        true
    }

    /// Its stage after its step found this.
    fn go(&self, layout: &Layout, found: u64) -> PassStage
        requires { Sound layout.now self.now }
        ensures { result ≡ goes_at layout.now self.now self.now.stage found }
    {
        match self.stage {
            PassStage::Look { page } => self.after_page(layout, page, PageWord::unpack(found)),
            PassStage::Bits { page, head, word } => self.after_bits(
                layout, page, head, word, found,
            ),
            PassStage::Take { page, .. } => PassStage::Ended { taken: Some(page) },
            PassStage::Ended { taken } => PassStage::Ended { taken },
        }
    }

    /// What it has given.
    fn given(&self) -> Option<Option<u32>>
        ensures { result ≡ given self.now }
    {
        match self.stage {
            PassStage::Ended { taken } => Some(taken),
            _ => None,
        }
    }
}

impl Routine for SweptPass {
    ghost use Rattle.gh_central.specs.SweptPass.{listing};

    type Out = Option<u32>;

    ghost listing = { listing };

    fn next(&self, layout: &Layout) -> Req {
        layout.request(self.ask(layout))
    }

    #[tactic(auto, using(crate::proofs::Passing::Sound::keeps_at))]
    fn take(&mut self, layout: &Layout, found: u64) -> Option<Option<u32>> {
        packed_words_are_read_back();
        if self.goes_on(layout, found) {
            return None;
        }
        self.stage = self.go(layout, found);
        self.given()
    }
}
