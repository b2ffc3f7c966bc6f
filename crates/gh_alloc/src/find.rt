//! The routine that looks for a slot for an object.

ghost use Rattle.std.specs.Prelude.{◌≡◌, ℕ, ◌+◌, ◌*◌, ◌^◌, ◌<◌, ◌≤◌, ◌↔◌, IfSome, IsTrue, None, Option, Some, false, true};
ghost use Rattle.gh_base.specs.Cells.{InRange};
ghost use Rattle.gh_base.specs.declared.cell.Ask.TheVariants.{Load};
ghost use Rattle.gh_base.specs.declared.layout.Layout.{Layout};
ghost use Rattle.gh_central.specs.GiveBack as giving;
ghost use Rattle.gh_alloc.specs.declared.find.FindStage.TheVariants.{Give};
ghost use Rattle.gh_alloc.specs.declared.sought.Found.TheVariants.{At, NoRoom};
ghost use Rattle.gh_alloc.specs.Find.{after_carve, after_give, after_lock, after_pass, after_slots, after_unswept, asks, at_stage, begin, behind_for, carving, finds_none, first_page, given, given_head, gives, goes, goes_further_at, is_busy, is_in_span, locked_for, opening, refuses, spans_for, taken, word_at_cursor};
ghost use Rattle.gh_alloc.specs.FindSound.{FitsPages, FitsWord, IsCached, Sound};
ghost use Rattle.gh_alloc.specs.Search.{again, frees_at, reclaiming};
ghost use Rattle.gh_alloc.specs.Within.{LiesWithin};

use crate::laws::finding_is_a_routine;
use crate::sought::{CachedSpan, Found, Sought, given_head, move_cursor};
use gh_base::{Ask, Cell, Layout, Req, Routine};
use gh_cache::NextSlot;
use gh_central::{GiveBack, Reclaim, SweptPass, UnsweptPass};
use gh_class::{Class, SpanClass, size_class_laws};
use gh_pages::Carve;

/// The page, where so many fit from it on, and else 0.
fn first_page(layout: &Layout, pages: u32, page: u32) -> u32
    requires { 1 ≤ pages }
    ensures page { result ≡ first_page layout.now pages page }
    ensures there { result ≤ layout.now.pages }
{
    if page <= layout.pages.saturating_sub(pages) {
        page
    } else {
        0
    }
}

/// What follows once the lock is free.
#[derive(Clone, Copy, Debug, PartialEq, Eq)]
pub enum After {
    /// The span that was taken is searched.
    Again,
    /// The search ends with this.
    End(Found),
}

/// The stages of the search.
#[derive(Clone, Copy)]
pub enum FindStage {
    /// It searches the cached span.
    Slots(NextSlot),
    /// It asks for the heap's lock.
    Lock,
    /// It gives the cached span back.
    Give(GiveBack),
    /// It looks for a swept span with a clear slot.
    Pass(SweptPass),
    /// It looks for an unswept span, which it sweeps, with a clear slot then.
    Unswept(UnsweptPass),
    /// It looks for fresh pages.
    Carve(Carve),
    /// It frees the lock.
    Unlock(After),
    /// It has ended with this.
    Ended(Found),
}

/// Looks for a slot for an object (Go's `mcache.nextFree` and `mcache.refill` over
/// `mcentral.cacheSpan`, and `mcache.allocLarge`, in malloc.go, mcache.go and mcentral.go).
///
/// For a small object it searches the cached span from its cursor on. Where no slot is left, or no
/// span is cached, it takes the heap's lock, gives the cached span back, and takes a swept span with
/// a clear slot; or else an unswept one, which it sweeps, with a clear slot then; or else fresh pages.
/// Then it frees the lock and searches that span. For a large object it takes fresh pages under the
/// lock. It ends with `NoRoom` where there are none.
#[derive(Clone, Copy)]
pub struct Find {
    /// The seat that looks.
    pub seat: u32,
    /// The sweep generation.
    pub generation: u64,
    /// What it looks for.
    pub wanted: Sought,
    /// The span that is cached now, with its cursor.
    pub cached: Option<CachedSpan>,
    /// Unswept spans are looked for too: not in the round behind the freeing of empty spans, where each is swept.
    pub sweeps: bool,
    /// Its stage.
    pub stage: FindStage,
}

impl Find {
    /// Looks for a slot. The head words that it writes say that the seat has the span cached, or nobody
    /// where it gives one back, and that it is swept in this sweep generation.
    pub fn new(seat: u32, generation: u64, wanted: Sought, cached: Option<CachedSpan>) -> Find
        ensures { result ≡ opening seat generation wanted cached }
    {
        let mut find = Find {
            seat,
            generation,
            wanted,
            cached,
            sweeps: true,
            stage: FindStage::Lock,
        };
        find.begin();
        find
    }

    /// The span that is cached now, with its cursor: it lies in the arena.
    pub fn cached(&self) -> Option<CachedSpan>
        ensures is { result ≡ self.now.cached }
        ensures within { (l : Layout) → Sound l self.now → IsCached l self.now.wanted result }
    {
        self.cached
    }

    /// With the next step the search has ended with `NoRoom`.
    pub fn refuses(&self) -> bool
        ensures is { result ≡ refuses self.now }
        ensures exactly { (l : Layout) (found : ℕ) → IsTrue result ↔ (gives l self.now found ≡ Some NoRoom) }
    {
        matches!(
            self.stage,
            FindStage::Unlock(After::End(Found::NoRoom)) | FindStage::Ended(Found::NoRoom)
        )
    }

    /// It has found no room, and the next step frees the heap's lock.
    pub(crate) fn finds_none(&self) -> bool
        ensures { result ≡ finds_none self.now }
    {
        matches!(self.stage, FindStage::Unlock(After::End(Found::NoRoom)))
    }

    /// What it has given.
    pub(crate) fn given(&self) -> Option<Found>
        ensures is { result ≡ given self.now }
        ensures within { (l : Layout) → Sound l self.now → IfSome result (LiesWithin l self.now.wanted) }
    {
        match self.stage {
            FindStage::Ended(found) => Some(found),
            _ => None,
        }
    }

    /// The next step frees the heap's lock.
    pub(crate) fn frees_lock(&self) -> bool
        ensures { result ≡ frees_at self.now.stage }
    {
        matches!(self.stage, FindStage::Unlock(_))
    }

    /// The freeing of empty spans of the same heap.
    pub(crate) fn reclaim(&self) -> Reclaim
        ensures { result ≡ reclaiming self.now }
    {
        Reclaim::new(self.generation)
    }
}

impl Find {
    /// Its first stage: the search of the cached span, if a slot is left from its cursor on, and else the lock.
    fn begin(&mut self)
        ensures { self.new ≡ at_stage self.old (begin self.old.wanted self.old.cached) }
    {
        self.stage = FindStage::Lock;
        if let Sought::Small(class) = self.wanted {
            if let Some(span) = self.cached {
                // The span is this seat's own, and no other takes a slot of it: it is searched without the lock.
                if span.cursor < class.class.slots() {
                    let span = span.of_class(class.class);
                    self.stage = FindStage::Slots(NextSlot::new(span));
                }
            }
        }
    }

    /// It looks for fresh pages next.
    fn carving(&self) -> FindStage
        requires { FitsPages self.now.wanted }
        ensures { result ≡ carving self.now }
    {
        let span = self.wanted.span();
        FindStage::Carve(Carve::new(self.seat, self.generation, span))
    }

    /// It looks for a span next.
    fn spans(&self) -> FindStage
        requires { FitsPages self.now.wanted }
        ensures { result ≡ spans_for self.now self.now.wanted }
    {
        match self.wanted {
            Sought::Small(class) => FindStage::Pass(SweptPass::new(
                self.seat,
                self.generation,
                class,
            )),
            Sought::Large { .. } => self.carving(),
        }
    }

    /// It goes over to the last search for a span, where each is swept.
    pub(crate) fn look_for_swept(&mut self)
        requires { FitsPages self.old.wanted }
        ensures { self.new ≡ again self.old }
    {
        self.sweeps = false;
        self.stage = self.spans();
    }

    /// What it looks for behind the swept spans.
    fn behind(&self) -> FindStage
        requires { FitsPages self.now.wanted }
        ensures { result ≡ behind_for self.now self.now.wanted }
    {
        match self.wanted {
            Sought::Small(class) if self.sweeps => FindStage::Unswept(UnsweptPass::new(
                self.seat,
                self.generation,
                class,
            )),
            _ => self.carving(),
        }
    }

    /// What follows once it has the lock.
    fn locked(&self) -> FindStage
        requires pages { FitsPages self.now.wanted }
        requires generation { self.now.generation < 2 ^ 34 }
        ensures { result ≡ locked_for self.now self.now.wanted self.now.cached }
    {
        match self.wanted {
            Sought::Small(class) => match self.cached {
                // No slot is left from its cursor on. It goes back before another is taken: a seat owns at most one span of a class.
                Some(span) => self.giving(class, span),
                None => self.spans(),
            },
            Sought::Large { .. } => self.spans(),
        }
    }

    /// It gives the cached span back next.
    fn giving(&self, class: SpanClass, span: CachedSpan) -> FindStage
        requires { self.now.generation < 2 ^ 34 }
        ensures { result ≡ Give (giving.opening span.head (given_head self.now.generation class)) }
    {
        let head = given_head(class, self.generation);
        FindStage::Give(GiveBack::new(span.head, head))
    }

    /// It goes on with the span from this page on.
    fn take_span(&mut self, layout: &Layout, page: u32)
        requires { FitsPages self.old.wanted }
        ensures { self.new ≡ taken layout.now self.old page }
    {
        match self.wanted {
            Sought::Small(class) => {
                let head = first_page(layout, class.class.pages(), page);
                self.cached = Some(CachedSpan { head, cursor: 0 });
                self.stage = FindStage::Unlock(After::Again);
            }
            Sought::Large { pages, .. } => {
                let word = 1024 * first_page(layout, pages, page);
                self.stage = FindStage::Unlock(After::End(Found::At(word)));
            }
        }
    }

    /// Goes on after it asked for the lock and found this.
    fn after_lock(&mut self, found: u64)
        requires pages { FitsPages self.old.wanted }
        requires generation { self.old.generation < 2 ^ 34 }
        requires stage { self.old.stage ≡ FindStage.Lock }
        ensures { self.new ≡ after_lock self.old found }
    {
        // 0 is nobody: the swap has made this seat the one that has the lock. Otherwise another has it, and it is asked for again.
        if found == 0 {
            self.stage = self.locked();
        }
    }

    /// Goes on after the pass has given this.
    fn after_pass(&mut self, layout: &Layout, out: Option<u32>)
        requires { FitsPages self.old.wanted }
        ensures { self.new ≡ after_pass layout.now self.old (Some out) }
    {
        match out {
            // No swept span will do. An unswept one may have clear slots that only its sweep tells of, so it comes before fresh pages.
            None => self.stage = self.behind(),
            Some(page) => self.take_span(layout, page),
        }
    }

    /// Goes on after the pass over unswept spans has given this.
    fn after_unswept(&mut self, layout: &Layout, out: Option<u32>)
        requires { FitsPages self.old.wanted }
        ensures { self.new ≡ after_unswept layout.now self.old (Some out) }
    {
        match out {
            None => self.stage = self.carving(),
            Some(page) => self.take_span(layout, page),
        }
    }

    /// Goes on after the search for pages has given this.
    fn after_carve(&mut self, layout: &Layout, out: Option<u32>)
        requires { FitsPages self.old.wanted }
        ensures { self.new ≡ after_carve layout.now self.old (Some out) }
    {
        match out {
            // The lock stays held until the next step: `Search` may go on under it.
            None => self.stage = FindStage::Unlock(After::End(Found::NoRoom)),
            Some(page) => self.take_span(layout, page),
        }
    }

    /// Goes on after the cached span was given back.
    fn after_give(&mut self)
        requires { FitsPages self.old.wanted }
        ensures { self.new ≡ after_give self.old (Some tt) }
    {
        self.cached = None;
        self.stage = self.spans();
    }

    /// The first heap word of the slot at the cursor; 0 where no span is cached.
    fn word(&self) -> u32
        requires { FitsWord self.now.wanted self.now.cached }
        ensures { result ≡ word_at_cursor self.now.wanted self.now.cached }
    {
        size_class_laws();
        match self.wanted {
            Sought::Small(class) => match self.cached {
                Some(span) => span.of_class(class.class).word(),
                None => 0,
            },
            Sought::Large { .. } => 0,
        }
    }

    /// Goes on after the search of the cached span has given this: a slot, or none.
    fn after_slots(&mut self, slot: Option<u32>)
        requires { FitsWord self.old.wanted self.old.cached }
        ensures { self.new ≡ after_slots self.old (Some slot) }
    {
        match slot {
            None => self.stage = FindStage::Lock,
            Some(_) => self.stage = FindStage::Ended(Found::At(self.word())),
        }
    }

    /// The cell that its next step loads, where it looks at a slot, a span or a page.
    #[inline(always)]
    pub(crate) fn looks(&self, layout: &Layout) -> Option<Cell>
        requires { Sound layout.now self.now }
        ensures asks { IfSome result (λ c. asks layout.now self.now ≡ Load c) }
        ensures within { IfSome result (InRange layout.now) }
    {
        match &self.stage {
            FindStage::Slots(search) => search.looks(layout),
            FindStage::Pass(pass) => pass.looks(layout),
            FindStage::Unswept(pass) => pass.looks(),
            FindStage::Carve(carve) => carve.looks(),
            _ => None,
        }
    }

    /// The first heap word of the slot with which the search ends by this word, where it searches the cached span and the slot at
    /// the cursor is clear.
    #[inline(always)]
    pub(crate) fn finds(&self, layout: &Layout, found: u64) -> Option<u32>
        requires { Sound layout.now self.now }
        ensures gives { IfSome result (λ at. gives layout.now self.now found ≡ Some (At at)) }
        ensures searches { IfSome result (λ at. finds_none (goes layout.now self.now found) ≡ false) }
        ensures cached { IfSome result (λ at. (goes layout.now self.now found).cached ≡ self.now.cached) }
        ensures within { IfSome result (λ at. LiesWithin layout.now self.now.wanted (At at)) }
        ensures busy { IfSome result (λ at. refuses self.now ≡ false) }
    {
        size_class_laws();
        match &self.stage {
            FindStage::Slots(search) => search.finds(layout, found),
            _ => None,
        }
    }

    /// It searches the cached span.
    #[inline(always)]
    pub(crate) fn is_in_span(&self) -> bool
        ensures { result ≡ is_in_span self.now }
    {
        matches!(self.stage, FindStage::Slots(_))
    }

    /// Goes on in the routine that it runs, to the next slot of the cached span, to the next alloc word of another or to a
    /// further page, where the word found leads there, and answers whether it did; where it did not, nothing has changed, and
    /// `take_step` makes the step.
    #[inline(always)]
    pub(crate) fn goes_on(&mut self, layout: &Layout, found: u64) -> bool
        requires { Sound layout.now self.old }
        ensures exactly { result ≡ goes_further_at layout.now self.old.stage found }
        ensures goes { IsTrue result → self.new ≡ goes layout.now self.old found }
        ensures gives { IsTrue result → gives layout.now self.old found ≡ None }
        ensures searches { IsTrue result → finds_none (goes layout.now self.old found) ≡ false }
        ensures cached { is_in_span self.new ≡ false → self.new.cached ≡ self.old.cached }
        ensures stays { result ≡ false → self.new ≡ self.old }
    {
        match &mut self.stage {
            FindStage::Slots(search) => {
                let goes_on = search.goes_on(layout, found);
                if goes_on {
                    self.cached = move_cursor(self.cached, search.cursor());
                }
                goes_on
            }
            FindStage::Pass(pass) => pass.goes_on(layout, found),
            FindStage::Unswept(pass) => pass.goes_on(layout, found),
            FindStage::Carve(carve) => carve.goes_on(layout, found),
            _ => false,
        }
    }

    /// Takes any step. Where a routine has ended, its stage gives way to another at once. It stands apart, since
    /// most steps of a search go on (`goes_on`) and need none of the memory that the other stages want.
    #[inline(never)]
    fn take_step(&mut self, layout: &Layout, found: u64)
        requires sound { Sound layout.now self.old }
        requires busy { is_busy self.old.stage ≡ true }
        ensures { self.new ≡ goes layout.now self.old found }
    {
        size_class_laws();
        match &mut self.stage {
            FindStage::Slots(search) => {
                let out = search.take(layout, found);
                self.cached = move_cursor(self.cached, search.cursor());
                if let Some(slot) = out {
                    self.stage = FindStage::Lock;
                    self.after_slots(slot);
                }
            }
            FindStage::Give(give) => {
                if give.take(layout, found).is_some() {
                    self.stage = FindStage::Lock;
                    self.after_give();
                }
            }
            FindStage::Pass(pass) => {
                if let Some(out) = pass.take(layout, found) {
                    self.stage = FindStage::Lock;
                    self.after_pass(layout, out);
                }
            }
            FindStage::Unswept(pass) => {
                if let Some(out) = pass.take(layout, found) {
                    self.stage = FindStage::Lock;
                    self.after_unswept(layout, out);
                }
            }
            FindStage::Carve(carve) => {
                if let Some(out) = carve.take(layout, found) {
                    self.stage = FindStage::Lock;
                    self.after_carve(layout, out);
                }
            }
            FindStage::Lock => self.after_lock(found),
            FindStage::Unlock(after) => {
                let then = *after;
                // Without the lock anything may change: a search that takes it again looks for unswept spans again.
                self.sweeps = true;
                match then {
                    After::Again => self.begin(),
                    After::End(out) => self.stage = FindStage::Ended(out),
                }
            }
            FindStage::Ended(_) => {}
        }
    }
}

impl Routine for Find {
    ghost use Rattle.std.specs.Prelude.{IfSome};
    ghost use Rattle.gh_base.specs.Machines.{IsBusy};
    ghost use Rattle.gh_alloc.specs.Find.{goes, listing};
    ghost use Rattle.gh_alloc.specs.FindSound.{Sound};
    ghost use Rattle.gh_alloc.specs.Within.{LiesWithin};

    type Out = Found;

    ghost listing = { listing };

    fn next(&self, layout: &Layout) -> Req {
        match &self.stage {
            FindStage::Slots(search) => search.next(layout),
            FindStage::Lock => {
                let mine = u64::from(self.seat) + 1;
                layout.request(Ask::Swap(Cell::Lock, 0, mine))
            }
            FindStage::Give(give) => give.next(layout),
            FindStage::Pass(pass) => pass.next(layout),
            FindStage::Unswept(pass) => pass.next(layout),
            FindStage::Carve(carve) => carve.next(layout),
            FindStage::Unlock(_) => layout.request(Ask::Store(Cell::Lock, 0)),
            FindStage::Ended(_) => layout.request(Ask::Load(Cell::Touch)),
        }
    }

    fn take(&mut self, layout: &Layout, found: u64) -> Option<Found>
        requires sound { Sound layout.now self.old }
        requires busy { IsBusy (listing layout.now) self.old }
        ensures state { self.new ≡ goes layout.now self.old found }
        ensures out { result ≡ (listing layout.now).given self.new }
        ensures sound { Sound layout.now self.new }
        ensures within { IfSome result (LiesWithin layout.now self.old.wanted) }
    {
        finding_is_a_routine();
        if self.goes_on(layout, found) {
            return None;
        }
        self.take_step(layout, found);
        self.given()
    }
}
