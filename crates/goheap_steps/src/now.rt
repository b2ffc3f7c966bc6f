//! The lines of a turn, each of one thing that has happened.

use crate::arena::{class, name, slots};
use crate::shades::{named, word};
use crate::stop::Stop;
use gh_base::{BufferWord, Cell, END, GONE, PageWord, Phase, PhaseWord, SpanHead};
use gh_io::{Sink, write_all};
use gh_pacer::NEVER;
use gh_script::Script;
use gh_world::World;
use std::alloc::{AllocError, Global};

/// A turn, after whose step words are looked at.
#[derive(Clone, Copy)]
pub struct Now<'w, 's> {
    pub alloc: Global,
    pub script: &'w Script,
    pub world: &'w World<'s>,
    pub turn: u64,
    pub actor: u8,
}

/// What has become of an object.
#[derive(Clone, Copy, PartialEq, Eq)]
pub enum Fate {
    Made,
    Freed,
    Shaded,
}

/// A control word.
#[derive(Clone, Copy, PartialEq, Eq)]
pub enum Control {
    Phase,
    Begun,
    Generation,
    Want,
    Bank,
    Heap,
    Trigger,
    Claimed,
}

impl Control {
    pub fn cell(self) -> Cell {
        match self {
            Control::Phase => Cell::Phase,
            Control::Begun => Cell::Begun,
            Control::Generation => Cell::Gen,
            Control::Want => Cell::Want,
            Control::Bank => Cell::Bank,
            Control::Heap => Cell::Heap,
            Control::Trigger => Cell::Trigger,
            Control::Claimed => Cell::Gcur,
        }
    }
}

impl Now<'_, '_> {
    /// Writes a line: the turn, the actor, and what has happened.
    pub fn tell<K: Sink>(&self, what: Result<String, AllocError>, out: &mut K) -> Result<(), Stop> {
        let what = what?;
        let line = format!(in self.alloc; "{} {} {what}\n", self.turn, self.actor)?;
        write_all(out, line.as_bytes())?;
        Ok(())
    }

    /// What has happened, with a number.
    pub fn numbered(&self, what: &str, n: u64) -> Result<String, AllocError> {
        format!(in self.alloc; "{what} {n}")
    }

    /// Tells what has become of a page. The further pages of a span are not told.
    pub fn tell_page<K: Sink>(&self, page: u32, found: PageWord, out: &mut K) -> Result<(), Stop> {
        match found {
            PageWord::Free => self.tell(self.of_free(page), out),
            PageWord::Head(head) => self.tell(self.of_span(page, head), out),
            PageWord::Body(_) => Ok(()),
        }
    }

    fn of_free(&self, page: u32) -> Result<String, AllocError> {
        format!(in self.alloc; "page {page} free")
    }

    fn of_span(&self, page: u32, head: SpanHead) -> Result<String, AllocError> {
        let place = self.of_place(page, head)?;
        let pointers = if head.noscan { "noscan" } else { "scan" };
        let swept = swept_name(head.number, word(self.world, Cell::Gen));
        format!(in self.alloc; "{place} {pointers} owner {} {swept}", head.owner)
    }

    fn of_place(&self, page: u32, head: SpanHead) -> Result<String, AllocError> {
        let class = class(self.alloc, head.class)?;
        let slots = slots(head.class);
        let words = self.slot_words(page);
        format!(in self.alloc;
            "page {page} {class} pages {} slots {slots} words {words}",
            head.pages
        )
    }

    /// The words of the slots of the span that the page is in.
    fn slot_words(&self, page: u32) -> u32 {
        PageWord::unpack(word(self.world, Cell::Page(page))).slot_words()
    }

    /// Tells the same of each object whose bit is set, among 64 heap words.
    pub fn tell_each<K: Sink>(
        &self,
        i: u32,
        bits: u64,
        fate: Fate,
        out: &mut K,
    ) -> Result<(), Stop> {
        for bit in 0..64u32 {
            if (bits >> bit) & 1 == 1 {
                let index = i.saturating_mul(64).saturating_add(bit);
                self.tell(self.of_object(index, fate), out)?;
            }
        }
        Ok(())
    }

    fn of_object(&self, index: u32, fate: Fate) -> Result<String, AllocError> {
        match fate {
            Fate::Made => self.of_made(index),
            Fate::Freed => self.of_freed(index),
            Fate::Shaded => self.of_shaded(index),
        }
    }

    /// The name of the object at the heap word.
    fn object(&self, index: u32) -> Result<String, AllocError> {
        let named = named(self.script, self.world, index);
        format!(in self.alloc; "{}.{}", name(self.script, named.g), named.k)
    }

    fn of_made(&self, index: u32) -> Result<String, AllocError> {
        let object = self.object(index)?;
        let marks = word(self.world, Cell::Mark(index / 64));
        let is_marked = (marks >> (index % 64)) & 1 == 1;
        let colour = if is_marked { "black" } else { "white" };
        format!(in self.alloc; "made {object} at {index} {colour}")
    }

    fn of_freed(&self, index: u32) -> Result<String, AllocError> {
        let object = self.object(index)?;
        format!(in self.alloc; "freed {object}")
    }

    /// An object is shaded: one without pointers is black then, and is not scanned.
    fn of_shaded(&self, index: u32) -> Result<String, AllocError> {
        let object = self.object(index)?;
        let found = PageWord::unpack(word(self.world, Cell::Page(index / 1024)));
        let words = found.slot_words();
        let colour = if found.noscan() { "black" } else { "grey" };
        format!(in self.alloc; "shades {object} words {words} {colour}")
    }

    /// Tells that a work buffer is taken, or given back with what is in it.
    pub fn tell_buffer<K: Sink>(
        &self,
        b: u32,
        buffer: BufferWord,
        out: &mut K,
    ) -> Result<(), Stop> {
        if buffer.holder == 0 {
            self.tell(self.of_given(b, buffer.count), out)
        } else {
            self.tell(self.numbered("takes", u64::from(b)), out)
        }
    }

    fn of_given(&self, b: u32, count: u32) -> Result<String, AllocError> {
        let mut told = self.numbered("gives", u64::from(b))?;
        for i in 0..count {
            let entry = self.entry(b, i)?;
            told.push_str(entry.as_str())?;
        }
        Ok(told)
    }

    /// The object of an entry. An entry has the index of an object's first word plus 1 in its lower half.
    fn entry(&self, b: u32, i: u32) -> Result<String, AllocError> {
        let reference = word(self.world, Cell::Entry(b, i));
        let index = (reference & 0xffff_ffff) as u32;
        let object = self.object(index.saturating_sub(1))?;
        format!(in self.alloc; " {object}")
    }

    pub fn of_ack(&self, found: u64) -> Result<String, AllocError> {
        if found == GONE {
            return format!(in self.alloc; "acknowledges gone");
        }
        self.numbered("acknowledges", found)
    }

    pub fn of_stack(&self, g: u32, found: u64) -> Result<String, AllocError> {
        let of = name(self.script, g);
        if found == END {
            return format!(in self.alloc; "ends {of}");
        }
        format!(in self.alloc; "stack {of} {found}")
    }

    /// Tells a control word. That no global is claimed any more is not told: the phase says so.
    pub fn tell_control<K: Sink>(
        &self,
        control: Control,
        found: u64,
        out: &mut K,
    ) -> Result<(), Stop> {
        if control == Control::Claimed && found == 0 {
            return Ok(());
        }
        self.tell(self.of_control(control, found), out)
    }

    fn of_control(&self, control: Control, found: u64) -> Result<String, AllocError> {
        match control {
            Control::Phase => self.of_phase(PhaseWord::unpack(found)),
            Control::Begun => self.numbered("begins", found),
            Control::Generation => self.numbered("marked", word(self.world, Cell::Begun)),
            Control::Want => self.numbered("want", found),
            Control::Bank => self.numbered("bank", found),
            Control::Heap => self.numbered("heap", found),
            Control::Trigger => self.of_trigger(found),
            Control::Claimed => self.numbered("claims", found.saturating_sub(1)),
        }
    }

    fn of_phase(&self, word: PhaseWord) -> Result<String, AllocError> {
        let phase = phase_name(word.phase);
        format!(in self.alloc; "phase {phase} {}", word.stops)
    }

    fn of_trigger(&self, found: u64) -> Result<String, AllocError> {
        if found == NEVER {
            return format!(in self.alloc; "trigger never");
        }
        self.numbered("trigger", found)
    }
}

/// The name of a phase.
pub fn phase_name(phase: Phase) -> &'static str {
    match phase {
        Phase::Off => "off",
        Phase::Mark => "mark",
        Phase::Stop => "stop",
        Phase::Finished => "finished",
    }
}

/// How a span of this number stands to the sweep generation.
fn swept_name(number: u64, generation: u64) -> &'static str {
    if number == generation {
        "swept"
    } else if number.saturating_add(1) == generation {
        "in-sweep"
    } else {
        "unswept"
    }
}
