//! The pages of the arena, told where a cycle's marking has ended, and where the cycle is swept: a line for each span and for
//! each run of free pages. The line of a span has its slots in their order. In a slot stands no object, or one that is marked, or
//! one that is not; or, once the marks are cleared by the sweep, one that was kept or was made since.
//!
//! The world is stopped at the first of these turns, so nobody has a span cached. At the second one it runs.

use crate::shades::{named, word};
use crate::stop::Stop;
use gh_base::{Cell, Name, PageWord, SpanHead};
use gh_class::SizeClass;
use gh_io::{Sink, write_all};
use gh_script::Script;
use gh_world::World;
use std::alloc::{AllocError, Global};

/// The moment at which the pages are told.
#[derive(Clone, Copy)]
pub struct Moment<'w, 's> {
    pub alloc: Global,
    pub script: &'w Script,
    pub world: &'w World<'s>,
    pub turn: u32,
    // The cycle is swept: no mark is set any more.
    pub is_swept: bool,
}

/// What stands in a slot.
#[derive(Clone, Copy, PartialEq, Eq)]
enum Slot {
    Free,
    Marked(Name),
    Unmarked(Name),
    Kept(Name),
}

impl Slot {
    /// What stands so many slots behind, if these slots are told together: free ones, or objects that their goroutine made
    /// one after the other.
    fn behind(self, many: u32) -> Slot {
        match self {
            Slot::Free => Slot::Free,
            Slot::Marked(name) => Slot::Marked(later(name, many)),
            Slot::Unmarked(name) => Slot::Unmarked(later(name, many)),
            Slot::Kept(name) => Slot::Kept(later(name, many)),
        }
    }
}

/// The object that the same goroutine made so many objects later.
fn later(name: Name, many: u32) -> Name {
    Name {
        g: name.g,
        k: name.k.saturating_add(many),
    }
}

/// Writes the lines of all pages.
pub fn tell_arena<K: Sink>(moment: &Moment<'_, '_>, out: &mut K) -> Result<(), Stop> {
    let pages = moment.world.layout().pages;
    let mut free = 0u32;
    for page in 0..pages {
        let word = PageWord::unpack(moment.word(Cell::Page(page)));
        let words = word.slot_words();
        match word {
            PageWord::Free => free = free.saturating_add(1),
            PageWord::Head(head) => {
                moment.tell_free(page.saturating_sub(free), free, out)?;
                free = 0;
                moment.tell_span(page, head, words, out)?;
            }
            PageWord::Body(_) => {}
        }
    }
    moment.tell_free(pages.saturating_sub(free), free, out)
}

impl Moment<'_, '_> {
    /// The cell's word.
    fn word(&self, cell: Cell) -> u64 {
        word(self.world, cell)
    }

    /// The cell's word has the bit of the heap word.
    fn has_bit(&self, cell: Cell, index: u32) -> bool {
        self.word(cell) & (1 << (index % 64)) != 0
    }

    /// What stands in the slot that begins at the heap word.
    fn slot(&self, index: u32) -> Slot {
        if !self.has_bit(Cell::Alloc(index / 64), index) {
            return Slot::Free;
        }
        let name = named(self.script, self.world, index);
        if self.is_swept {
            Slot::Kept(name)
        } else if self.has_bit(Cell::Mark(index / 64), index) {
            Slot::Marked(name)
        } else {
            Slot::Unmarked(name)
        }
    }

    /// Writes the line of so many free pages from this one on, where there are any.
    fn tell_free<K: Sink>(&self, first: u32, many: u32, out: &mut K) -> Result<(), Stop> {
        if many == 0 {
            return Ok(());
        }
        let pages = pages(self.alloc, first, many)?;
        let line = format!(in self.alloc; "{} {pages}: free\n", self.turn)?;
        write_all(out, line.as_bytes())?;
        Ok(())
    }

    /// Writes the line of a span.
    fn tell_span<K: Sink>(
        &self,
        first: u32,
        head: SpanHead,
        words: u32,
        out: &mut K,
    ) -> Result<(), Stop> {
        let pages = pages(self.alloc, first, head.pages)?;
        let class = class(self.alloc, head.class)?;
        let pointers = if head.noscan {
            "no pointers"
        } else {
            "pointers"
        };
        let line = format!(in self.alloc;
            "{} {pages}: {class}, {words}-word slots, {pointers}:",
            self.turn
        )?;
        write_all(out, line.as_bytes())?;
        self.tell_slots(first.saturating_mul(1024), words, slots(head.class), out)
    }

    /// Writes what stands in so many slots of so many words, the first of which begins at the heap word.
    fn tell_slots<K: Sink>(
        &self,
        start: u32,
        words: u32,
        slots: u32,
        out: &mut K,
    ) -> Result<(), Stop> {
        let mut first = self.slot(start);
        let mut many = 0u32;
        for i in 0..slots {
            let slot = self.slot(start.saturating_add(words.saturating_mul(i)));
            if slot != first.behind(many) {
                self.tell_run(first, many, ",", out)?;
                first = slot;
                many = 0;
            }
            many = many.saturating_add(1);
        }
        self.tell_run(first, many, "\n", out)
    }

    /// Writes what stands in so many slots that are told together, and behind it this.
    fn tell_run<K: Sink>(
        &self,
        first: Slot,
        many: u32,
        end: &str,
        out: &mut K,
    ) -> Result<(), Stop> {
        let told = match first {
            Slot::Free => format!(in self.alloc; " free {many}{end}")?,
            Slot::Marked(name) => self.objects("marked", name, many, end)?,
            Slot::Unmarked(name) => self.objects("unmarked", name, many, end)?,
            Slot::Kept(name) => self.objects("kept", name, many, end)?,
        };
        write_all(out, told.as_bytes())?;
        Ok(())
    }

    /// So many objects of a goroutine, one after the other, which are all this.
    fn objects(&self, what: &str, first: Name, many: u32, end: &str) -> Result<String, AllocError> {
        let name = name(self.script, first.g);
        if many == 1 {
            return format!(in self.alloc; " {what} {name}.{}{end}", first.k);
        }
        let last = first.k.saturating_add(many).saturating_sub(1);
        format!(in self.alloc; " {what} {name}.{} to {name}.{last}{end}", first.k)
    }
}

/// So many pages from this one on.
fn pages(alloc: Global, first: u32, many: u32) -> Result<String, AllocError> {
    if many == 1 {
        return format!(in alloc; "page {first}");
    }
    format!(in alloc;
        "pages {first} to {}",
        first.saturating_add(many).saturating_sub(1)
    )
}

/// A size class.
pub fn class(alloc: Global, class: SizeClass) -> Result<String, AllocError> {
    match class {
        SizeClass::Small(class) => format!(in alloc; "class {}", class.number()),
        SizeClass::Large => format!(in alloc; "large"),
    }
}

/// The slots of a span of this class.
pub fn slots(class: SizeClass) -> u32 {
    match class {
        SizeClass::Small(class) => class.slots(),
        SizeClass::Large => 1,
    }
}

/// The name of a goroutine.
pub fn name(script: &Script, g: u32) -> &str {
    if g < script.goroutines() {
        script.name(g)
    } else {
        "?"
    }
}
