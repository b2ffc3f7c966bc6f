//! The words of a heap as they stood after the turn before, so that what a step has changed can be told: of the control words, the page words,
//! the alloc and mark bits, the work buffers, the acknowledgements and the stacks scanned. Fields and globals are not looked at: what they
//! hold follows from the statements, in the order in which they act.

use crate::now::{Control, Fate, Now};
use crate::shades::word;
use crate::stop::Stop;
use gh_base::{BufferWord, Cell, PageWord};
use gh_io::Sink;
use gh_world::World;
use std::alloc::{AllocError, Global};

/// The control words that are looked at.
const CONTROL: [Control; 8] = [
    Control::Phase,
    Control::Begun,
    Control::Generation,
    Control::Want,
    Control::Bank,
    Control::Heap,
    Control::Trigger,
    Control::Claimed,
];

/// The words of one kind, as they stood when they were looked at last.
#[derive(Drop)]
struct Row {
    words: Vec<u64>,
}

impl Row {
    /// So many words, each 0.
    fn new(alloc: Global, many: u32) -> Result<Row, AllocError> {
        let words = vec![in alloc; 0u64; many as usize]?;
        Ok(Row { words })
    }

    /// Notes what stands at this place now, and answers what stood there if that was another word.
    fn note(&mut self, at: u32, found: u64) -> Option<u64> {
        let at = at as usize;
        if at >= self.words.len() {
            return None;
        }
        let before = self.words[at];
        if before == found {
            return None;
        }
        self.words[at] = found;
        Some(before)
    }
}

/// The words as they stood when they were looked at last.
#[derive(Drop)]
pub struct Seen {
    control: Row,
    pages: Row,
    allocs: Row,
    marks: Row,
    buffers: Row,
    acks: Row,
    scanned: Row,
    // The pages and the buffers below these have been in use. A span is carved from the first run of free pages that is long enough, and the first
    // buffer that will do is taken, so one that comes into use is one of them or the next.
    used_pages: u32,
    used_buffers: u32,
}

impl Seen {
    /// The words of a heap that opens: those that are told are 0, but for the control words, which are noted.
    pub fn new(alloc: Global, world: &World<'_>) -> Result<Seen, AllocError> {
        let layout = world.layout();
        let bits = layout.pages.saturating_mul(16);
        Ok(Seen {
            control: opening(alloc, world)?,
            pages: Row::new(alloc, layout.pages)?,
            allocs: Row::new(alloc, bits)?,
            marks: Row::new(alloc, bits)?,
            buffers: Row::new(alloc, layout.buffers())?,
            acks: Row::new(alloc, u32::from(world.actors()))?,
            scanned: Row::new(alloc, layout.goroutines)?,
            used_pages: 0,
            used_buffers: 0,
        })
    }

    /// Tells what the step of this turn has changed. Of bits and buffers nothing changes while no cycle is under way, but for the object
    /// that is made at a point.
    pub fn look<K: Sink>(
        &mut self,
        now: &Now<'_, '_>,
        is_point: bool,
        out: &mut K,
    ) -> Result<(), Stop> {
        self.look_at_pages(now, out)?;
        if is_point || is_under_way(now.world) {
            self.look_at_slots(now, out)?;
        }
        if is_under_way(now.world) {
            self.look_at_buffers(now, out)?;
        }
        self.look_at_ack(now, out)?;
        self.look_at_stacks(now, out)?;
        self.look_at_control(now, out)
    }

    fn look_at_pages<K: Sink>(&mut self, now: &Now<'_, '_>, out: &mut K) -> Result<(), Stop> {
        let pages = now.world.layout().pages;
        for page in 0..self.used_pages.saturating_add(2).min(pages) {
            self.look_at_page(now, page, out)?;
        }
        Ok(())
    }

    fn look_at_page<K: Sink>(
        &mut self,
        now: &Now<'_, '_>,
        page: u32,
        out: &mut K,
    ) -> Result<(), Stop> {
        let found = word(now.world, Cell::Page(page));
        if self.pages.note(page, found).is_none() {
            return Ok(());
        }
        let unpacked = PageWord::unpack(found);
        let end = page.saturating_add(unpacked.pages());
        self.used_pages = self.used_pages.max(end);
        now.tell_page(page, unpacked, out)
    }

    fn look_at_slots<K: Sink>(&mut self, now: &Now<'_, '_>, out: &mut K) -> Result<(), Stop> {
        for i in 0..self.used_pages.saturating_mul(16) {
            self.look_at_allocs(now, i, out)?;
            self.look_at_marks(now, i, out)?;
        }
        Ok(())
    }

    /// Tells which objects have been made or freed among 64 heap words.
    fn look_at_allocs<K: Sink>(
        &mut self,
        now: &Now<'_, '_>,
        i: u32,
        out: &mut K,
    ) -> Result<(), Stop> {
        let found = word(now.world, Cell::Alloc(i));
        let Some(before) = self.allocs.note(i, found) else {
            return Ok(());
        };
        now.tell_each(i, found & !before, Fate::Made, out)?;
        now.tell_each(i, before & !found, Fate::Freed, out)
    }

    /// Tells which objects have been shaded among 64 heap words. A mark that is set before its object is made shades nothing.
    fn look_at_marks<K: Sink>(
        &mut self,
        now: &Now<'_, '_>,
        i: u32,
        out: &mut K,
    ) -> Result<(), Stop> {
        let found = word(now.world, Cell::Mark(i));
        let Some(before) = self.marks.note(i, found) else {
            return Ok(());
        };
        let stands = word(now.world, Cell::Alloc(i));
        now.tell_each(i, found & !before & stands, Fate::Shaded, out)
    }

    fn look_at_buffers<K: Sink>(&mut self, now: &Now<'_, '_>, out: &mut K) -> Result<(), Stop> {
        let buffers = now.world.layout().buffers();
        for b in 0..self.used_buffers.saturating_add(2).min(buffers) {
            self.look_at_buffer(now, b, out)?;
        }
        Ok(())
    }

    fn look_at_buffer<K: Sink>(
        &mut self,
        now: &Now<'_, '_>,
        b: u32,
        out: &mut K,
    ) -> Result<(), Stop> {
        let found = word(now.world, Cell::Buffer(b));
        if self.buffers.note(b, found).is_none() {
            return Ok(());
        }
        self.used_buffers = self.used_buffers.max(b.saturating_add(1));
        now.tell_buffer(b, BufferWord::unpack(found), out)
    }

    /// Tells what the actor has acknowledged.
    fn look_at_ack<K: Sink>(&mut self, now: &Now<'_, '_>, out: &mut K) -> Result<(), Stop> {
        let actor = u32::from(now.actor);
        let found = word(now.world, Cell::Ack(actor));
        if self.acks.note(actor, found).is_none() {
            return Ok(());
        }
        now.tell(now.of_ack(found), out)
    }

    fn look_at_stacks<K: Sink>(&mut self, now: &Now<'_, '_>, out: &mut K) -> Result<(), Stop> {
        for g in 0..now.world.layout().goroutines {
            self.look_at_stack(now, g, out)?;
        }
        Ok(())
    }

    fn look_at_stack<K: Sink>(
        &mut self,
        now: &Now<'_, '_>,
        g: u32,
        out: &mut K,
    ) -> Result<(), Stop> {
        let found = word(now.world, Cell::Scanned(g));
        if self.scanned.note(g, found).is_none() {
            return Ok(());
        }
        now.tell(now.of_stack(g, found), out)
    }

    fn look_at_control<K: Sink>(&mut self, now: &Now<'_, '_>, out: &mut K) -> Result<(), Stop> {
        for i in 0..8u32 {
            self.look_at_one(now, i, out)?;
        }
        Ok(())
    }

    fn look_at_one<K: Sink>(&mut self, now: &Now<'_, '_>, i: u32, out: &mut K) -> Result<(), Stop> {
        let Some(control) = CONTROL.get(i as usize) else {
            return Ok(());
        };
        let found = word(now.world, control.cell());
        if self.control.note(i, found).is_none() {
            return Ok(());
        }
        now.tell_control(*control, found, out)
    }
}

/// A cycle has begun and is not swept.
fn is_under_way(world: &World<'_>) -> bool {
    word(world, Cell::Begun) != word(world, Cell::Swept)
}

/// The control words of a heap that opens.
fn opening(alloc: Global, world: &World<'_>) -> Result<Row, AllocError> {
    let mut row = Row::new(alloc, 8)?;
    for i in 0..8u32 {
        if let Some(control) = CONTROL.get(i as usize) {
            let _ = row.note(i, word(world, control.cell()));
        }
    }
    Ok(row)
}
