//! The routine that sweeps a span.

ghost use Rattle.std.specs.Prelude.{◌≡◌, ◌+◌, ◌*◌, ◌^◌, ◌<◌, ◌≤◌};
ghost use Rattle.gh_base.specs.Cells.{InRange};
ghost use Rattle.gh_base.specs.Packing.{FitsHead, head_word};
ghost use Rattle.gh_base.specs.Steps.{cell_of};
ghost use Rattle.gh_sweep.specs.Bits.{freed_in, kept_in};
ghost use Rattle.gh_sweep.specs.Listing.{asks, behind, bit_words, counted, given, goes, in_sweep, once_swept, opening, slot_bytes, slots_in, swept_span, word_at};
ghost use Rattle.gh_sweep.specs.Sound.{FitsSweep, Sound};

use gh_base::{Ask, Cell, Layout, PageWord, Req, Routine, SpanHead, TallyWord};
use gh_class::SizeClass;

/// The stages of the routine. A word of the span's bits is numbered from the span's first, 16 a page.
#[derive(Clone, Copy, Debug, PartialEq, Eq)]
pub enum SweepStage {
    /// It swaps the head for one whose number says that the span is swept now.
    Begin,
    /// It loads a word of mark bits.
    LoadMarks(u32),
    /// It clears the bits of an alloc word that are not among the marks found.
    ClearBits(u32, u64),
    /// It clears a word of mark bits.
    ClearMarks(u32),
    /// It adds the objects kept and freed to those of the cycle.
    AddTally,
    /// It adds the bytes kept to those of the cycle.
    AddLive,
    /// It takes the bytes freed off the heap's.
    AddHeap,
    /// It writes the head of the swept span.
    Finish,
    /// It has ended with this.
    Ended(SweepEnd),
}

/// What a sweep has found of a span.
#[derive(Clone, Copy, Debug, PartialEq, Eq)]
pub struct SweptSpan {
    /// The objects that it kept: they were marked.
    pub kept: u32,
    /// The objects that it freed.
    pub freed: u32,
    /// A slot is clear: it kept fewer objects than the span has slots.
    pub clear: bool,
}

/// What a sweep ends with.
#[derive(Clone, Copy, Debug, PartialEq, Eq)]
pub enum SweepEnd {
    /// The head had changed meanwhile: another has begun to sweep the span.
    Lost,
    /// The span is swept.
    Swept(SweptSpan),
}

/// Sweeps a span (Go's `sweepLocked.sweep`, mgcsweep.go).
///
/// It swaps the span's head word from what was found to the same with the next sweep number, and is lost
/// where that found another word. Then for each word of the span's bits it loads the mark bits, keeps
/// those alloc bits alone that are among them, and clears the mark bits. It counts the bits that it kept
/// and freed, adds them to the cycle's counts, their bytes to the cycle's and off the heap's, and writes
/// the head with the number of a swept span and no owner.
#[derive(Clone, Copy, Debug, PartialEq, Eq)]
pub struct Sweep {
    /// The span's first page.
    pub page: u32,
    /// What its head word was found to say.
    pub head: SpanHead,
    /// The objects kept so far.
    pub kept: u32,
    /// The objects freed so far.
    pub freed: u32,
    /// Its stage.
    pub stage: SweepStage,
}

/// The bytes of a slot of the span.
fn slot_bytes(head: &SpanHead) -> u64
    requires { FitsHead head.now }
    ensures is { result ≡ slot_bytes head.now }
    ensures few { result ≤ 2 ^ 26 }
{
    match head.class {
        SizeClass::Small(class) => u64::from(class.slot_bytes()),
        SizeClass::Large => 8192 * u64::from(head.pages),
    }
}

/// How many slots a span of the size class has.
fn slots_in(class: &SizeClass) -> u32
    ensures { result ≡ slots_in class.now }
{
    match class {
        SizeClass::Small(class) => class.slots(),
        SizeClass::Large => 1,
    }
}

impl Sweep {
    /// Sweeps the span whose first page this is, and whose head word was found to say this.
    pub fn new(page: u32, head: SpanHead) -> Sweep
        ensures { result ≡ opening page head }
    {
        Sweep {
            page,
            head,
            kept: 0,
            freed: 0,
            stage: SweepStage::Begin,
        }
    }

    /// The head word as it was found.
    fn found_word(&self) -> u64
        requires { FitsSweep self.now.head }
        ensures { result ≡ head_word self.now.head }
    {
        PageWord::Head(self.head).pack()
    }

    /// The head word while the span is swept.
    fn begun_word(&self) -> u64
        requires { FitsSweep self.now.head }
        ensures { result ≡ head_word (in_sweep self.now.head) }
    {
        PageWord::Head(SpanHead {
            number: self.head.number + 1,
            ..self.head
        })
        .pack()
    }

    /// The head word of the swept span.
    fn swept_word(&self) -> u64
        requires { FitsSweep self.now.head }
        ensures { result ≡ head_word (once_swept self.now.head) }
    {
        PageWord::Head(SpanHead {
            owner: 0,
            number: self.head.number + 2,
            ..self.head
        })
        .pack()
    }

    /// Where word `i` of the span's bits lies in its row.
    fn word_at(&self, layout: &Layout, i: u32) -> u32
        requires sound { Sound layout.now self.now }
        requires word { i < bit_words self.now.head }
        ensures is { result ≡ word_at layout.now self.now i }
        ensures within { result < 16 * layout.now.pages }
    {
        (16 * self.page + i) % (16 * layout.pages)
    }

    /// The step that it asks for.
    pub fn ask(&self, layout: &Layout) -> Ask
        requires { Sound layout.now self.now }
        ensures asks { result ≡ asks layout.now self.now }
        ensures within { InRange layout.now (cell_of result) }
    {
        match self.stage {
            SweepStage::Begin => {
                let page = Cell::Page(self.page);
                Ask::Swap(page, self.found_word(), self.begun_word())
            }
            SweepStage::LoadMarks(i) => Ask::Load(Cell::Mark(self.word_at(layout, i))),
            SweepStage::ClearBits(i, marks) => {
                let alloc = Cell::Alloc(self.word_at(layout, i));
                Ask::And(alloc, marks)
            }
            SweepStage::ClearMarks(i) => Ask::Store(Cell::Mark(self.word_at(layout, i)), 0),
            SweepStage::AddTally => {
                let tally = TallyWord {
                    marked: self.kept,
                    freed: self.freed,
                };
                Ask::Add(Cell::Tally, tally.pack())
            }
            SweepStage::AddLive => Ask::Add(Cell::Live, self.bytes(self.kept)),
            SweepStage::AddHeap => {
                Ask::Add(Cell::Heap, 0u64.wrapping_sub(self.bytes(self.freed)))
            }
            SweepStage::Finish => Ask::Store(Cell::Page(self.page), self.swept_word()),
            SweepStage::Ended(_) => Ask::Load(Cell::Touch),
        }
    }

    /// The bytes of so many slots.
    fn bytes(&self, slots: u32) -> u64
        requires { FitsSweep self.now.head }
        ensures is { result ≡ slots * slot_bytes self.now.head }
        ensures fits { result < 2 ^ 64 }
    {
        u64::from(slots) * slot_bytes(&self.head)
    }

    /// What it has found of the span.
    fn swept_span(&self) -> SweptSpan
        ensures { result ≡ swept_span self.now }
    {
        SweptSpan {
            kept: self.kept,
            freed: self.freed,
            clear: self.kept < slots_in(&self.head.class),
        }
    }

    /// Its stage behind word `i` of the span's bits.
    fn behind(&self, i: u32) -> SweepStage
        requires head { FitsSweep self.now.head }
        requires word { i < bit_words self.now.head }
        ensures { result ≡ behind self.now i }
    {
        let words = 16 * self.head.pages;
        if i + 1 < words {
            SweepStage::LoadMarks(i + 1)
        } else {
            SweepStage::AddTally
        }
    }

    /// What it has given.
    fn given(&self) -> Option<SweepEnd>
        ensures { result ≡ given self.now }
    {
        match self.stage {
            SweepStage::Ended(end) => Some(end),
            _ => None,
        }
    }

    /// Counts the bits of an alloc word that are kept and freed.
    fn count(&mut self, i: u32, marks: u64, found: u64)
        requires word { i < 2 ^ 17 }
        requires kept { self.old.kept ≤ 64 * i }
        requires freed { self.old.freed ≤ 64 * i }
        ensures { self.new ≡ counted self.old i marks found }
    {
        self.kept += (found & marks).count_ones();
        self.freed += (found & !marks).count_ones();
        self.stage = SweepStage::ClearMarks(i);
    }

    /// Goes on by what its step found.
    fn go(&mut self, layout: &Layout, found: u64)
        requires { Sound layout.now self.old }
        ensures { self.new ≡ goes self.old found }
    {
        match self.stage {
            SweepStage::Begin => {
                // Another word means that another has swapped the head first, and the span is its to sweep. So each object is kept or
                // freed, and counted, by one sweep.
                self.stage = if found != self.found_word() {
                    SweepStage::Ended(SweepEnd::Lost)
                } else {
                    SweepStage::LoadMarks(0)
                };
            }
            SweepStage::LoadMarks(i) => self.stage = SweepStage::ClearBits(i, found),
            // The alloc bits are cut before the marks are cleared. So in each word an object that stands and is to stay is marked until
            // the objects that are to go are gone: a mark is what tells them apart.
            SweepStage::ClearBits(i, marks) => self.count(i, marks, found),
            SweepStage::ClearMarks(i) => self.stage = self.behind(i),
            // All three counts come before the head's last word: who finds each span swept reads counts that are whole.
            SweepStage::AddTally => self.stage = SweepStage::AddLive,
            SweepStage::AddLive => self.stage = SweepStage::AddHeap,
            SweepStage::AddHeap => self.stage = SweepStage::Finish,
            SweepStage::Finish => {
                self.stage = SweepStage::Ended(SweepEnd::Swept(self.swept_span()));
            }
            SweepStage::Ended(_) => {}
        }
    }
}

impl Routine for Sweep {
    ghost use Rattle.gh_sweep.specs.Listing.{listing};

    type Out = SweepEnd;

    ghost listing = { listing };

    fn next(&self, layout: &Layout) -> Req {
        layout.request(self.ask(layout))
    }

    #[tactic(auto, using(crate::proofs::Bits::few_ones))]
    fn take(&mut self, layout: &Layout, found: u64) -> Option<SweepEnd> {
        self.go(layout, found);
        self.given()
    }
}
