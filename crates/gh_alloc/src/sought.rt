//! What a slot is looked for, where, and what is found.

ghost use Rattle.std.specs.Prelude.{◌≡◌, ◌^◌, ◌<◌, ◌≤◌};
ghost use Rattle.gh_base.specs.Packing.{FitsHead};
ghost use Rattle.gh_class.specs.Classes.{pages_of};
ghost use Rattle.gh_pages.specs.Sound.{FitsSpan};
ghost use Rattle.gh_alloc.specs.Find.{given_head, move_cursor, span_at, span_for};
ghost use Rattle.gh_alloc.specs.FindSound.{FitsPages};

use gh_base::SpanHead;
use gh_cache::Cached;
use gh_class::{Class, SizeClass, SpanClass};
use gh_pages::Span;

/// What a slot is looked for.
#[derive(Clone, Copy, Debug, PartialEq, Eq)]
pub enum Sought {
    /// An object of a size class, in a slot of a span of this span class.
    Small(SpanClass),
    /// A large object, in a span of its own.
    Large {
        /// The pages of the span, 1 to `MOST_SPAN_PAGES`.
        pages: u32,
        /// That the object has no pointer fields.
        noscan: bool,
    },
}

/// A span that a processor has cached for a span class.
#[derive(Clone, Copy, Debug, PartialEq, Eq)]
pub struct CachedSpan {
    /// Its first page.
    pub head: u32,
    /// A slot, or the number of slots. Each slot before it is taken.
    pub cursor: u32,
}

/// What the search ends with.
#[derive(Clone, Copy, Debug, PartialEq, Eq)]
pub enum Found {
    /// The slot whose first heap word this is.
    At(u32),
    /// The heap has no room for the object.
    NoRoom,
}

impl Sought {
    /// What a fresh span is cut for.
    pub fn span(&self) -> Span
        requires { FitsPages self.now }
        ensures span { result ≡ span_for self.now }
        ensures fits { FitsSpan result }
    {
        match *self {
            Sought::Small(class) => Span {
                class: SizeClass::Small(class.class),
                noscan: class.noscan,
                pages: class.class.pages(),
            },
            Sought::Large { pages, noscan } => Span {
                class: SizeClass::Large,
                noscan,
                pages,
            },
        }
    }
}

impl CachedSpan {
    /// The span, of this class.
    pub fn of_class(&self, class: Class) -> Cached
        ensures { result ≡ span_at class self.now }
    {
        Cached {
            head: self.head,
            class,
            cursor: self.cursor,
        }
    }
}

/// The head of a span of the class that is given back as a swept one.
pub fn given_head(class: SpanClass, generation: u64) -> SpanHead
    requires { generation < 2 ^ 34 }
    ensures is { result ≡ given_head generation class }
    ensures fits { FitsHead result }
    ensures some { 1 ≤ pages_of class.class }
{
    SpanHead {
        class: SizeClass::Small(class.class),
        noscan: class.noscan,
        pages: class.class.pages(),
        owner: 0,
        number: generation,
    }
}

/// The cursor of the cached span is this.
pub fn move_cursor(cached: Option<CachedSpan>, cursor: u32) -> Option<CachedSpan>
    ensures { result ≡ move_cursor cursor cached }
{
    match cached {
        Some(span) => Some(CachedSpan {
            head: span.head,
            cursor,
        }),
        None => None,
    }
}
