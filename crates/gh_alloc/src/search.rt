//! The search for a slot where a collector runs.

ghost use Rattle.std.specs.Prelude.{◌≡◌, ℕ, ◌^◌, ◌<◌, ◌↔◌, IfSome, IsTrue, None, Option, Some, false, true};
ghost use Rattle.gh_base.specs.Cells.{InRange};
ghost use Rattle.gh_base.specs.declared.cell.Ask.TheVariants.{Load};
ghost use Rattle.gh_base.specs.declared.layout.Layout.{Layout};
ghost use Rattle.gh_alloc.specs.declared.search.SearchStage.TheVariants.{Free};
ghost use Rattle.gh_alloc.specs.declared.sought.Found.TheVariants.{At, NoRoom};
ghost use Rattle.gh_alloc.specs.FindSound.{IsCached};
ghost use Rattle.gh_alloc.specs.Search.{asks, given, gives, goes, goes_further_at, is_busy, is_in_span, opening, reclaiming, refuses};
ghost use Rattle.gh_alloc.specs.SearchSound.{Sound};
ghost use Rattle.gh_alloc.specs.Within.{LiesWithin};

use crate::find::Find;
use crate::laws::searching_is_a_routine;
use crate::sought::{CachedSpan, Found, Sought};
use gh_base::{Cell, Layout, Req, Routine};
use gh_central::Reclaim;

/// The stages of the search where a collector runs.
#[derive(Clone, Copy)]
pub enum SearchStage {
    /// It searches, and has freed no empty span since it took the lock.
    First,
    /// It frees the pages of empty spans.
    Free(Reclaim),
    /// It searches once more, with the lock still held.
    Second,
}

/// Looks for a slot for an object where a collector runs (Go's `mheap.alloc`, which reclaims pages
/// before it takes some, in mheap.go).
///
/// It searches as [`Find`] does. Where that finds neither a span with a clear slot nor fresh
/// pages, the heap's lock stays held: a span whose objects were all freed still has its pages, and
/// serves no object of another class. So each span that nobody owns is swept and the pages of each empty
/// one are freed by [`Reclaim`], and then swept spans and fresh pages are looked for once more. It ends with
/// `NoRoom` where there are none then. A search that takes the lock anew may sweep and free spans anew.
#[derive(Clone, Copy)]
pub struct Search {
    /// The search of the cached span and of the heap.
    pub find: Find,
    /// Its stage.
    pub stage: SearchStage,
}

impl Search {
    /// Looks for a slot. The head words that it writes say that the seat has the span cached, or nobody
    /// where it gives one back, and that it is swept in this sweep generation.
    pub fn new(seat: u32, generation: u64, wanted: Sought, cached: Option<CachedSpan>) -> Search
        ensures { result ≡ opening seat generation wanted cached }
    {
        Search {
            find: Find::new(seat, generation, wanted, cached),
            stage: SearchStage::First,
        }
    }

    /// The span that is cached now, with its cursor: it lies in the arena.
    pub fn cached(&self) -> Option<CachedSpan>
        ensures is { result ≡ self.now.find.cached }
        ensures within { (l : Layout) → Sound l self.now → IsCached l self.now.find.wanted result }
    {
        self.find.cached()
    }

    /// With the next step the search has ended with `NoRoom`.
    pub fn refuses(&self) -> bool
        ensures is { result ≡ refuses self.now }
        ensures exactly { (l : Layout) (found : ℕ) → IsTrue result ↔ (gives l self.now found ≡ Some NoRoom) }
    {
        match self.stage {
            SearchStage::Free(_) => false,
            SearchStage::First | SearchStage::Second => self.find.refuses(),
        }
    }

    /// The cell that its next step loads, where in its first round it looks at a slot, a span or a page.
    #[inline(always)]
    pub fn looks(&self, layout: &Layout) -> Option<Cell>
        requires { Sound layout.now self.now }
        ensures asks { IfSome result (λ c. asks layout.now self.now ≡ Load c) }
        ensures within { IfSome result (InRange layout.now) }
    {
        match self.stage {
            SearchStage::First => self.find.looks(layout),
            SearchStage::Free(_) | SearchStage::Second => None,
        }
    }

    /// The first heap word of the slot with which the search ends by this word, where in its first round it searches the cached span
    /// and the slot at the cursor is clear.
    #[inline(always)]
    pub fn finds(&self, layout: &Layout, found: u64) -> Option<u32>
        requires { Sound layout.now self.now }
        ensures gives { IfSome result (λ at. gives layout.now self.now found ≡ Some (At at)) }
        ensures cached { IfSome result (λ at. (goes layout.now self.now found).find.cached ≡ self.now.find.cached) }
        ensures within { IfSome result (λ at. LiesWithin layout.now self.now.find.wanted (At at)) }
        ensures busy { IfSome result (λ at. refuses self.now ≡ false) }
    {
        match self.stage {
            SearchStage::First => self.find.finds(layout, found),
            SearchStage::Free(_) | SearchStage::Second => None,
        }
    }

    /// It searches the cached span.
    #[inline(always)]
    pub fn is_in_span(&self) -> bool
        ensures { result ≡ is_in_span self.now }
    {
        self.find.is_in_span()
    }

    /// In its first round goes on to the next slot of the cached span, to the next alloc word of another or to a further page, where the
    /// word found leads there, and answers whether it did. Most steps of a search do, and they change one number or two; where it did
    /// not, nothing has changed, and [`take`](Routine::take) makes the step.
    #[inline(always)]
    pub fn goes_on(&mut self, layout: &Layout, found: u64) -> bool
        requires { Sound layout.now self.old }
        ensures exactly { result ≡ goes_further_at layout.now self.old.find self.old.stage found }
        ensures goes { IsTrue result → self.new ≡ goes layout.now self.old found }
        ensures gives { IsTrue result → gives layout.now self.old found ≡ None }
        ensures cached { is_in_span self.new ≡ false → self.new.find.cached ≡ self.old.find.cached }
        ensures stays { result ≡ false → self.new ≡ self.old }
    {
        match self.stage {
            SearchStage::First => self.find.goes_on(layout, found),
            SearchStage::Free(_) | SearchStage::Second => false,
        }
    }

    /// The pages of empty spans are freed next.
    // It stands apart, so that the other steps clear no memory for the stage.
    #[inline(never)]
    fn begin_freeing(&mut self)
        ensures { self.new ≡ record self.old { stage = Free (reclaiming self.old.find) } }
    {
        self.stage = SearchStage::Free(self.find.reclaim());
    }

    /// What it has given.
    fn given(&self) -> Option<Found>
        ensures is { result ≡ given self.now }
        ensures within { (l : Layout) → Sound l self.now → IfSome result (LiesWithin l self.now.find.wanted) }
    {
        match self.stage {
            SearchStage::Free(_) => None,
            SearchStage::First | SearchStage::Second => self.find.given(),
        }
    }

    /// Goes on by what its step found.
    fn go(&mut self, layout: &Layout, found: u64)
        requires sound { Sound layout.now self.old }
        requires busy { is_busy self.old.find self.old.stage ≡ true }
        ensures { self.new ≡ goes layout.now self.old found }
    {
        match &mut self.stage {
            SearchStage::First => {
                // Where nothing is found the lock is not freed: empty spans give their pages back first, and what they give must still
                // be there when it is searched once more.
                self.find.take(layout, found);
                if self.find.finds_none() {
                    self.begin_freeing();
                }
            }
            SearchStage::Free(reclaim) => {
                if reclaim.take(layout, found).is_some() {
                    self.find.look_for_swept();
                    self.stage = SearchStage::Second;
                }
            }
            SearchStage::Second => {
                // With the lock gone others may take what was freed, or free more, so the search is a first one again.
                let frees = self.find.frees_lock();
                self.find.take(layout, found);
                if frees {
                    self.stage = SearchStage::First;
                }
            }
        }
    }
}

impl Routine for Search {
    ghost use Rattle.std.specs.Prelude.{IfSome};
    ghost use Rattle.gh_base.specs.Machines.{IsBusy};
    ghost use Rattle.gh_alloc.specs.Search.{goes, listing};
    ghost use Rattle.gh_alloc.specs.SearchSound.{Sound};
    ghost use Rattle.gh_alloc.specs.Within.{LiesWithin};

    type Out = Found;

    ghost listing = { listing };

    #[inline(always)]
    fn next(&self, layout: &Layout) -> Req {
        match &self.stage {
            SearchStage::Free(reclaim) => reclaim.next(layout),
            SearchStage::First | SearchStage::Second => self.find.next(layout),
        }
    }

    fn take(&mut self, layout: &Layout, found: u64) -> Option<Found>
        requires sound { Sound layout.now self.old }
        requires busy { IsBusy (listing layout.now) self.old }
        ensures state { self.new ≡ goes layout.now self.old found }
        ensures out { result ≡ (listing layout.now).given self.new }
        ensures sound { Sound layout.now self.new }
        ensures within { IfSome result (LiesWithin layout.now self.old.find.wanted) }
    {
        searching_is_a_routine();
        self.go(layout, found);
        self.given()
    }
}
