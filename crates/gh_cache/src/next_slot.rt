//! The routine that looks for the next clear slot.

ghost use Rattle.std.specs.Prelude.{◌≡◌, ◌+◌, ◌*◌, ◌<◌, ◌≤◌, IfSome, IsTrue, None, Some, false, is_none, true};
ghost use Rattle.gh_base.specs.Cells.{InRange};
ghost use Rattle.gh_base.specs.Steps.{cell_of};
ghost use Rattle.gh_class.specs.Classes.{pages_of, slots_of};
ghost use Rattle.gh_base.specs.declared.cell.Ask.TheVariants.{Load};
ghost use Rattle.gh_cache.specs.declared.next_slot.SlotStage.TheVariants.{Ended};
ghost use Rattle.gh_cache.specs.Listing.{asks, at_stage, bit_is_clear, given, goes, goes_on_at, opening, slot_at};
ghost use Rattle.gh_cache.specs.Sound.{Sound};

use gh_base::limits::MOST_PAGES;
use gh_base::{Ask, Cell, Layout, Req, Routine, modulo};
use gh_class::{Class, size_class_laws};

/// A span that a processor has cached.
#[derive(Clone, Copy, Debug, PartialEq, Eq)]
pub struct Cached {
    /// Its first page.
    pub head: u32,
    /// Its size class.
    pub class: Class,
    /// A slot, or the number of slots. Whoever caches the span knows that each slot before it is taken.
    pub cursor: u32,
}

/// The stages of the routine.
#[derive(Clone, Copy, Debug, PartialEq, Eq)]
pub enum SlotStage {
    /// It looks at the slot at the cursor.
    Look,
    /// It has ended.
    Ended {
        /// The clear slot, if one was left.
        slot: Option<u32>,
    },
}

/// Looks for the next clear slot of a cached span (Go's `mcache.nextFree` and
/// `mspan.nextFreeIndex`, in malloc.go and mbitmap.go).
///
/// It loads the alloc word of the slot at the cursor, and moves the cursor on as long as the slot's
/// bit is set. It ends with the first slot whose bit is clear, and leaves the cursor there; or with
/// `None` where no slot is left.
#[derive(Clone, Copy, Debug, PartialEq, Eq)]
pub struct NextSlot {
    /// The span: its cursor is as far as the routine has come.
    pub span: Cached,
    /// Its stage.
    pub stage: SlotStage,
}

/// The bit of this heap word is clear in the alloc word found.
#[inline(always)]
fn bit_is_clear(word: u32, found: u64) -> bool
    ensures { result ≡ bit_is_clear word found }
{
    (found >> (word % 64)) & 1 == 0
}

impl Cached {
    /// The first heap word of the slot at the cursor.
    pub fn word(&self) -> u32
        requires head { self.now.head ≤ MOST_PAGES }
        requires cursor { self.now.cursor ≤ 1024 }
        ensures { result ≡ slot_at self.now self.now.cursor }
    {
        1024 * self.head + self.cursor * self.class.slot_words()
    }
}

impl NextSlot {
    /// Looks for a clear slot from the span's cursor on.
    pub fn new(span: Cached) -> NextSlot
        ensures { result ≡ opening span }
    {
        NextSlot {
            span,
            stage: SlotStage::Look,
        }
    }

    /// The span's cursor now: a slot, or the number of slots.
    pub fn cursor(&self) -> u32
        ensures { result ≡ self.now.span.cursor }
    {
        self.span.cursor
    }

    /// The step that it asks for.
    fn ask(&self, layout: &Layout) -> Ask
        requires { Sound layout.now self.now }
        ensures asks { result ≡ asks layout.now self.now }
        ensures within { InRange layout.now (cell_of result) }
    {
        match self.stage {
            SlotStage::Look => {
                let word = self.span.word();
                Ask::Load(Cell::Alloc(modulo(word / 64, 16 * layout.pages)))
            }
            SlotStage::Ended { .. } => Ask::Load(Cell::Touch),
        }
    }
}

impl NextSlot {
    /// Goes on by the alloc word of the slot at the cursor.
    fn look(&mut self, found: u64)
        requires head { self.old.span.head ≤ MOST_PAGES }
        requires cursor { self.old.span.cursor ≤ 1024 }
        requires busy { is_none (given self.old) ≡ true }
        ensures { self.new ≡ goes self.old found }
    {
        if bit_is_clear(self.span.word(), found) {
            self.stage = SlotStage::Ended {
                slot: Some(self.span.cursor),
            };
            return;
        }
        self.span.cursor += 1;
        if self.span.cursor >= self.span.class.slots() {
            self.stage = SlotStage::Ended { slot: None };
        }
    }

    /// The cell that its next step loads, where it looks at a slot.
    #[inline(always)]
    pub fn looks(&self, layout: &Layout) -> Option<Cell>
        requires { Sound layout.now self.now }
        ensures asks { IfSome result (λ c. asks layout.now self.now ≡ Load c) }
        ensures within { IfSome result (InRange layout.now) }
    {
        match self.stage {
            SlotStage::Look => {
                let word = self.span.word();
                Some(Cell::Alloc(modulo(word / 64, 16 * layout.pages)))
            }
            SlotStage::Ended { .. } => None,
        }
    }

    /// Goes on to the next slot, where the word found says that the slot at the cursor is taken and one is left, and answers
    /// whether it did; where it did not, nothing has changed, and [`take`](Routine::take) makes the step.
    #[inline(always)]
    pub fn goes_on(&mut self, layout: &Layout, found: u64) -> bool
        requires { Sound layout.now self.old }
        ensures exactly { result ≡ goes_on_at self.old self.old.stage found }
        ensures goes { IsTrue result → self.new ≡ goes self.old found }
        ensures gives { IsTrue result → given (goes self.old found) ≡ None }
        ensures stays { result ≡ false → self.new ≡ self.old }
    {
        let _ = layout;
        size_class_laws();
        let SlotStage::Look = self.stage else {
            return false;
        };
        if bit_is_clear(self.span.word(), found) {
            return false;
        }
        let next = self.span.cursor + 1;
        if next >= self.span.class.slots() {
            return false;
        }
        self.span.cursor = next;
        true
    }

    /// The first heap word of the slot at the cursor, where the word found says that it is clear: by this word the routine
    /// ends with that slot.
    #[inline(always)]
    pub fn finds(&self, layout: &Layout, found: u64) -> Option<u32>
        requires { Sound layout.now self.now }
        ensures goes { IfSome result (λ at. goes self.now found ≡ at_stage self.now (Ended (Some self.now.span.cursor))) }
        ensures at { IfSome result (λ at. at ≡ slot_at self.now.span self.now.span.cursor) }
    {
        let _ = layout;
        match self.stage {
            SlotStage::Look => {
                let word = self.span.word();
                if bit_is_clear(word, found) {
                    Some(word)
                } else {
                    None
                }
            }
            SlotStage::Ended { .. } => None,
        }
    }

    /// What it has given.
    fn given(&self) -> Option<Option<u32>>
        ensures { result ≡ given self.now }
    {
        match self.stage {
            SlotStage::Look => None,
            SlotStage::Ended { slot } => Some(slot),
        }
    }
}

impl Routine for NextSlot {
    ghost use Rattle.gh_cache.specs.Listing.{listing};

    type Out = Option<u32>;

    ghost listing = { listing };

    fn next(&self, layout: &Layout) -> Req {
        layout.request(self.ask(layout))
    }

    #[tactic(auto, using(std::proofs::lemmas::Bool::Decides::nat_tests))]
    fn take(&mut self, _layout: &Layout, found: u64) -> Option<Option<u32>> {
        size_class_laws();
        self.look(found);
        self.given()
    }
}
