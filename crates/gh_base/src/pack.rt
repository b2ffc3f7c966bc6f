//! The words that hold more than one number, and nothing else knows how.
//!
//! `pack` writes such a word, and `unpack` reads it back. What actors find is always a word that
//! `pack` wrote, but reading is total: a part that may not stand there is read as the least that
//! may. So a machine needs no case for words that never are.

ghost use Rattle.std.specs.Prelude.{◌≡◌, ◌+◌, ◌<◌, ◌^◌};
ghost use Rattle.gh_base.specs.Packing.{birth_word, buffer_of, buffer_word, class_bits, class_in, FitsBuffer, FitsPage, FitsPhase, name_of, page_class, page_noscan, page_of, page_pages, page_word, phase_of, phase_word, slot_in, tally_of, tally_word};
ghost use Rattle.gh_class.specs.Classes.{IsSizeClass};

use crate::value::Name;
use gh_class::{Class, SizeClass};

/// What stands for a large object in the place of a size class's number.
const LARGE: u32 = 31;
/// The entries of a grey work buffer.
pub const ENTRIES: u32 = 253;
/// What a machine that is done acknowledges.
pub const GONE: u64 = u64::MAX;
/// The cycle in which an ended goroutine's stack counts as scanned.
pub const END: u64 = u64::MAX;

/// The first page of a span.
#[derive(Clone, Copy, Debug, PartialEq, Eq)]
pub struct SpanHead {
    /// The size class of its objects.
    pub class: SizeClass,
    /// That its objects have no pointer fields.
    pub noscan: bool,
    /// Its pages, 1 to 8191.
    pub pages: u32,
    /// 0, or 1 more than the seat that has it cached; below 256.
    pub owner: u32,
    /// The sweep number, below 2^34: 2 below the heap's where it is to be swept, 1 below while it
    /// is swept, the heap's where it is swept.
    pub number: u64,
}

/// A further page of a span.
#[derive(Clone, Copy, Debug, PartialEq, Eq)]
pub struct SpanBody {
    /// The size class of the span's objects.
    pub class: SizeClass,
    /// That the span's objects have no pointer fields.
    pub noscan: bool,
    /// How many pages the head lies before it, 1 to 8191.
    pub distance: u32,
}

/// What a page word says.
#[derive(Clone, Copy, Debug, PartialEq, Eq)]
pub enum PageWord {
    /// The page is in no span. The word is 0.
    Free,
    /// The first page of a span.
    Head(SpanHead),
    /// A further page of a span.
    Body(SpanBody),
}

/// The number of a size class in a page word.
fn class_number(class: SizeClass) -> u32
    ensures { result ≡ class_bits class }
{
    match class {
        SizeClass::Small(class) => class.number(),
        SizeClass::Large => LARGE,
    }
}

/// The size class in a page word. One that there is not is read as the first.
fn read_class(word: u64) -> SizeClass
    ensures is { result ≡ class_in word }
    ensures among { IsSizeClass result }
{
    let number = ((word >> 2) & 63) as u32;
    if number == LARGE {
        return SizeClass::Large;
    }
    match Class::from_number(number) {
        Some(class) => SizeClass::Small(class),
        None => SizeClass::Small(Class::FIRST),
    }
}

impl PageWord {
    /// The word: bits 0 and 1 the kind (0 free, 1 head, 2 body), from bit 2 the class, bit 8
    /// noscan, from bit 9 the pages or the distance, from bit 22 the owner, from bit 30 the sweep
    /// number.
    pub fn pack(self) -> u64
        requires { FitsPage self }
        ensures word { result ≡ page_word self }
        ensures back { page_of result ≡ self }
    {
        match self {
            PageWord::Free => 0,
            PageWord::Head(head) => {
                1 + (u64::from(class_number(head.class)) << 2)
                    + (u64::from(head.noscan) << 8)
                    + (u64::from(head.pages) << 9)
                    + (u64::from(head.owner) << 22)
                    + (head.number << 30)
            }
            PageWord::Body(body) => {
                2 + (u64::from(class_number(body.class)) << 2)
                    + (u64::from(body.noscan) << 8)
                    + (u64::from(body.distance) << 9)
            }
        }
    }

    /// Reads a page word. Kind 3 is read as free, a class that there is not as 0, and no pages or
    /// no distance as 1.
    pub fn unpack(word: u64) -> PageWord
        ensures says { result ≡ page_of word }
        ensures fits { FitsPage result }
    {
        let class = read_class(word);
        let noscan = (word >> 8) & 1 == 1;
        let pages = (((word >> 9) & 8191) as u32).max(1);
        match word & 3 {
            1 => PageWord::Head(SpanHead {
                class,
                noscan,
                pages,
                owner: ((word >> 22) & 255) as u32,
                number: word >> 30,
            }),
            2 => PageWord::Body(SpanBody {
                class,
                noscan,
                distance: pages,
            }),
            _ => PageWord::Free,
        }
    }

    /// The size class of the span that the page is in; of a free page the first.
    pub fn class(&self) -> SizeClass
        ensures { result ≡ page_class self.now }
    {
        match self {
            PageWord::Free => SizeClass::Small(Class::FIRST),
            PageWord::Head(head) => head.class,
            PageWord::Body(body) => body.class,
        }
    }

    /// That the objects of the page's span have no pointer fields; of a free page false.
    pub fn noscan(&self) -> bool
        ensures { result ≡ page_noscan self.now }
    {
        match self {
            PageWord::Free => false,
            PageWord::Head(head) => head.noscan,
            PageWord::Body(body) => body.noscan,
        }
    }

    /// The pages of the span at its head; of any other page 1.
    pub fn pages(&self) -> u32
        ensures { result ≡ page_pages self.now }
    {
        match self {
            PageWord::Head(head) => head.pages,
            _ => 1,
        }
    }

    /// The words of the slot of an object whose first word is in such a page: those of its class's
    /// slots, or of the whole span.
    pub fn slot_words(&self) -> u32
        requires { FitsPage self.now }
        ensures { result ≡ slot_in self.now }
    {
        match self.class() {
            SizeClass::Small(class) => class.slot_words(),
            SizeClass::Large => 1024 * self.pages(),
        }
    }
}

/// What a buffer word says.
#[derive(Clone, Copy, Debug, PartialEq, Eq)]
pub struct BufferWord {
    /// The entries in it, at most [`ENTRIES`]. While the buffer is held this is what it was when it
    /// was taken.
    pub count: u32,
    /// 0, or 1 more than the seat that holds it.
    pub holder: u64,
}

impl BufferWord {
    /// The word: the count and 256 times the holder.
    pub fn pack(self) -> u64
        requires { FitsBuffer self }
        ensures word { result ≡ buffer_word self }
        ensures back { buffer_of result ≡ self }
    {
        u64::from(self.count) + (self.holder << 8)
    }

    /// Reads a buffer word. A count above 253 is read as 0.
    pub fn unpack(word: u64) -> BufferWord
        ensures says { result ≡ buffer_of word }
        ensures fits { FitsBuffer result }
    {
        let count = (word & 255) as u32;
        BufferWord {
            count: if count <= ENTRIES { count } else { 0 },
            holder: word >> 8,
        }
    }
}

impl Name {
    /// The birth word of an object: `(g + 1) * 2^32 + k`.
    pub fn pack(self) -> u64
        requires { self.g + 1 < 2 ^ 32 }
        ensures word { result ≡ birth_word self }
        ensures back { (goroutines : _) → self.g < goroutines → name_of goroutines result ≡ self }
    {
        ((u64::from(self.g) + 1) << 32) + u64::from(self.k)
    }

    /// Reads a birth word. A goroutine that there is not is read as 0.
    pub fn unpack(word: u64, goroutines: u32) -> Name
        requires { 0 < goroutines }
        ensures says { result ≡ name_of goroutines word }
        ensures there { result.g < goroutines }
    {
        let g = ((word >> 32) as u32).saturating_sub(1);
        Name {
            g: if g < goroutines { g } else { 0 },
            k: (word & 0xffff_ffff) as u32,
        }
    }
}

/// What the collector is at (Go's `gcphase`, with the two waits around it).
#[derive(Clone, Copy, Debug, PartialEq, Eq)]
pub enum Phase {
    /// No marking.
    Off,
    /// Marking.
    Mark,
    /// The world is to stop.
    Stop,
    /// The last cycle is swept.
    Finished,
}

/// What the phase word says.
#[derive(Clone, Copy, Debug, PartialEq, Eq)]
pub struct PhaseWord {
    /// The number of stops, below 2^62.
    pub stops: u64,
    /// The phase.
    pub phase: Phase,
}

impl PhaseWord {
    /// The word: 4 times the stops, and 0 for off, 1 for mark, 2 for stop, 3 for finished.
    pub fn pack(self) -> u64
        requires { FitsPhase self }
        ensures word { result ≡ phase_word self }
        ensures back { phase_of result ≡ self }
    {
        let kind = match self.phase {
            Phase::Off => 0,
            Phase::Mark => 1,
            Phase::Stop => 2,
            Phase::Finished => 3,
        };
        (self.stops << 2) + kind
    }

    /// Reads a phase word.
    pub fn unpack(word: u64) -> PhaseWord
        ensures says { result ≡ phase_of word }
        ensures fits { FitsPhase result }
    {
        let phase = match word & 3 {
            0 => Phase::Off,
            1 => Phase::Mark,
            2 => Phase::Stop,
            _ => Phase::Finished,
        };
        PhaseWord {
            stops: word >> 2,
            phase,
        }
    }
}

/// What the tally word says.
#[derive(Clone, Copy, Debug, PartialEq, Eq)]
pub struct TallyWord {
    /// The objects that a sweep kept.
    pub marked: u32,
    /// The objects that a sweep freed.
    pub freed: u32,
}

impl TallyWord {
    /// The word: marked and 2^32 times freed.
    pub fn pack(self) -> u64
        ensures word { result ≡ tally_word self }
        ensures back { tally_of result ≡ self }
    {
        u64::from(self.marked) + (u64::from(self.freed) << 32)
    }

    /// Reads a tally word.
    pub fn unpack(word: u64) -> TallyWord
        ensures says { result ≡ tally_of word }
    {
        TallyWord {
            marked: (word & 0xffff_ffff) as u32,
            freed: (word >> 32) as u32,
        }
    }
}
