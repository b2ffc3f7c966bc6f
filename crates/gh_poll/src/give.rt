//! The routine by which a processor gives back what it holds of the heap.

ghost use Rattle.std.specs.Prelude.{◌≡◌, ◌^◌, ◌<◌, Option, length};
ghost use Rattle.gh_base.specs.declared.layout.Layout.{Layout};
ghost use Rattle.gh_base.specs.Cells.{InRange};
ghost use Rattle.gh_base.specs.Holding.{IsHeld};
ghost use Rattle.gh_base.specs.Machines.{Runs};
ghost use Rattle.gh_base.specs.Steps.{cell_of};
ghost use Rattle.gh_class.specs.declared.class.TheConstants.{SPAN_CLASSES};
ghost use Rattle.gh_wbuf.specs.BufferGiving as buffers;
ghost use Rattle.gh_poll.specs.Give.{given, giving_buffer, goes_at, head_store, is_busy, none_cached, opening, span_class, stage_from};
ghost use Rattle.gh_poll.specs.GiveSound.{FitsCache, FitsCachedSpan, SoundGiving, SoundStage};

use gh_alloc::{CachedSpan, given_head};
use gh_base::{Ask, Cell, Held, Layout, PageWord, Req, Routine};
use gh_class::{Class, SPAN_CLASSES, SpanClass, size_class_laws};
use gh_wbuf::GiveBuffer;

/// The spans that a processor has cached, each at the place of its span class.
pub type Cache = [Option<CachedSpan>; SPAN_CLASSES as usize];

/// The stages of the giving back.
#[derive(Clone, Copy, Debug, PartialEq, Eq)]
pub enum GiveStage {
    /// It asks for the heap's lock.
    Lock,
    /// It gives a cached span back.
    GiveSpan {
        /// Its span class, by its number.
        class: u32,
        /// The span.
        span: CachedSpan,
    },
    /// It frees the lock.
    Unlock,
    /// It gives the buffer back.
    GiveBuffer(GiveBuffer),
    /// It has ended: no span is cached, and no buffer is held.
    Ended,
}

/// Gives the cached spans and the buffer back (Go's `mcache.releaseAll`, mcache.go, and
/// `gcWork.dispose`, mgcwork.go).
///
/// Where a span is cached it takes the heap's lock, gives each cached span back in ascending span class,
/// and frees the lock; none is cached then. Where a buffer is held it gives that back; none is held then.
/// Where there is neither it takes no step.
#[derive(Clone, Copy)]
pub struct Give {
    /// The processor's seat.
    pub seat: u32,
    /// The sweep generation that the head words say.
    pub generation: u64,
    /// The spans that are cached now.
    pub cache: Cache,
    /// The buffer that is held now, if any.
    pub held: Option<Held>,
    /// Its stage.
    pub stage: GiveStage,
}

/// The span class of this number.
fn span_class(number: u32) -> SpanClass
    requires { number < SPAN_CLASSES }
    ensures { result ≡ span_class number }
{
    match Class::from_number(number / 2) {
        Some(class) => SpanClass {
            class,
            noscan: number % 2 == 1,
        },
        None => unreachable!(),
    }
}

/// What follows under the lock from this span class on: the first span that is cached, or the freeing of
/// the lock.
fn stage_from(cache: &[Option<CachedSpan>], from: u32) -> GiveStage
    requires { length cache.now ≡ SPAN_CLASSES }
    ensures is { result ≡ stage_from cache.now from }
    ensures fits { (l : Layout) → FitsCache l cache.now → SoundStage l result }
{
    for class in from..SPAN_CLASSES {
        if let Some(span) = cache[class as usize] {
            return GiveStage::GiveSpan { class, span };
        }
    }
    GiveStage::Unlock
}

/// The cache with no span in it.
pub(crate) fn no_spans() -> Cache
    ensures is { result ≡ none_cached }
    ensures room { length result ≡ SPAN_CLASSES }
    ensures fits { (l : Layout) → FitsCache l result }
{
    [None; SPAN_CLASSES as usize]
}

/// What follows once no span is cached.
fn giving_buffer(held: Option<Held>) -> GiveStage
    ensures is { result ≡ giving_buffer held }
    ensures fits { (l : Layout) → IsHeld l held → SoundStage l result }
{
    match held {
        None => GiveStage::Ended,
        Some(held) => GiveStage::GiveBuffer(GiveBuffer::new(held)),
    }
}

impl Give {
    /// The processor at this seat gives these spans and this buffer back; the head words that it writes say
    /// that the spans are swept in this sweep generation.
    pub fn new(
        layout: &Layout,
        seat: u32,
        generation: u64,
        cache: Cache,
        held: Option<Held>,
    ) -> Give
        requires seat { seat < layout.now.procs }
        requires generation { generation < 2 ^ 34 }
        requires cache { FitsCache layout.now cache }
        requires held { IsHeld layout.now held }
        ensures opening { result ≡ opening seat generation cache held }
        ensures sound { SoundGiving layout.now result }
    {
        let _ = layout;
        let stage = match stage_from(&cache, 0) {
            GiveStage::Unlock => giving_buffer(held),
            _ => GiveStage::Lock,
        };
        Give {
            seat,
            generation,
            cache,
            held,
            stage,
        }
    }

    /// It asks for a step: something is left to be given back.
    pub fn is_busy(&self) -> bool
        ensures { result ≡ is_busy self.now.stage }
    {
        !matches!(self.stage, GiveStage::Ended)
    }

    /// The step that gives this span back.
    fn give_span(&self, layout: &Layout, class: u32, span: CachedSpan) -> Ask
        requires sound { SoundGiving layout.now self.now }
        requires fits { FitsCachedSpan layout.now class span }
        ensures is { result ≡ head_store self.now.generation class span }
        ensures within { InRange layout.now (cell_of result) }
    {
        let _ = layout;
        let head = given_head(span_class(class), self.generation);
        Ask::Store(Cell::Page(span.head), PageWord::Head(head).pack())
    }

    /// The lock is free, and no span is cached.
    fn unlocked(&mut self)
        ensures is { self.new ≡ record self.old { cache = none_cached; stage = giving_buffer self.old.held } }
        ensures fits { (l : Layout) → SoundGiving l self.old → SoundGiving l self.new }
    {
        self.cache = no_spans();
        self.stage = giving_buffer(self.held);
    }

    /// Takes a step of the giving back of the buffer.
    fn give_buffer(&mut self, layout: &Layout, give: &GiveBuffer, found: u64)
        requires sound { SoundGiving layout.now self.old }
        requires runs { Runs (buffers.listing layout.now) give.now }
        ensures goes { self.new ≡ goes_at self.old (GiveStage.GiveBuffer give.now) found }
        ensures sound { SoundGiving layout.now self.new }
    {
        let mut give = *give;
        match give.take(layout, found) {
            None => self.stage = GiveStage::GiveBuffer(give),
            Some(()) => {
                self.held = None;
                self.stage = GiveStage::Ended;
            }
        }
    }

    /// What it has given: it has ended, or not.
    fn given(&self) -> Option<()>
        ensures { result ≡ given self.now.stage }
    {
        match self.stage {
            GiveStage::Ended => Some(()),
            _ => None,
        }
    }
}

impl Routine for Give {
    ghost use Rattle.gh_poll.specs.Give.{listing};

    type Out = ();

    ghost listing = { listing };

    fn next(&self, layout: &Layout) -> Req {
        let ask = match &self.stage {
            GiveStage::Lock => Ask::Swap(Cell::Lock, 0, u64::from(self.seat) + 1),
            GiveStage::GiveSpan { class, span } => self.give_span(layout, *class, *span),
            GiveStage::Unlock => Ask::Store(Cell::Lock, 0),
            GiveStage::GiveBuffer(give) => return give.next(layout),
            GiveStage::Ended => Ask::Load(Cell::Touch),
        };
        layout.request(ask)
    }

    fn take(&mut self, layout: &Layout, found: u64) -> Option<()> {
        let stage = self.stage;
        match &stage {
            GiveStage::Lock => {
                if found == 0 {
                    self.stage = stage_from(&self.cache, 0);
                }
            }
            GiveStage::GiveSpan { class, .. } => self.stage = stage_from(&self.cache, *class + 1),
            GiveStage::Unlock => self.unlocked(),
            GiveStage::GiveBuffer(give) => self.give_buffer(layout, give, found),
            GiveStage::Ended => {}
        }
        self.given()
    }
}
