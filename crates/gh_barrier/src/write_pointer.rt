//! The routine that writes a pointer behind the write barrier.

ghost use Rattle.std.specs.Prelude.{◌≡◌, ◌↔◌, IsTrue, true};
ghost use Rattle.gh_base.specs.declared.layout.Layout.{Layout};
ghost use Rattle.gh_base.specs.Holding.{IsHeld};
ghost use Rattle.gh_barrier.specs.Listing.{after_new, after_old, behind_old, given, held_at, is_busy, opening, pointer_word, read_as, with_old};
ghost use Rattle.gh_barrier.specs.Sound.{FitsPointer, HasTwo, SoundWriting};
ghost use Rattle.gh_barrier.specs.declared.write_pointer.WriteStage.TheVariants.{Store};

use crate::pointer_cell::PointerCell;
use gh_base::{Ask, Cell, ENTRIES, Held, Layout, Req, Routine};
use gh_shade::{Shade, Shaded};

/// The stages of the writing of a pointer.
#[derive(Clone, Copy, Debug, PartialEq, Eq)]
pub enum WriteStage {
    /// It loads what the cell holds.
    LoadOld,
    /// It shades what it found there.
    ShadeOld(Shade),
    /// It shades the new value.
    ShadeNew(Shade),
    /// It stores the new value.
    Store,
    /// It has ended.
    Ended,
}

/// Writes a pointer while marking is on (proposal 17503's `writePointer`; Go's write barrier, mbarrier.go).
///
/// It loads what the cell holds, shades the object that is named there, if one is, and then that of the new value,
/// if it is not nil. Its last step stores the new value: with that step the store acts. It waits for nobody: it is to
/// be begun with a held buffer that has room for both objects.
#[derive(Clone, Copy, Debug, PartialEq, Eq)]
pub struct WritePointer {
    /// The cell.
    pub at: PointerCell,
    /// What the cell is to hold.
    pub pointer: Option<u64>,
    /// The buffer that is held between shadings, if any.
    pub held: Option<Held>,
    /// Its stage.
    pub stage: WriteStage,
}

/// A buffer is held, and two entries go into it: what a write is begun with.
pub fn has_two(held: Option<Held>) -> bool
    ensures { IsTrue result ↔ HasTwo held }
{
    match held {
        Some(held) => held.count <= ENTRIES - 2,
        None => false,
    }
}

/// A found word as what it names: the reference of an object, which is taken modulo the heap's words, or nil.
fn read_as(layout: &Layout, found: u64) -> Option<u64>
    ensures is { result ≡ read_as layout.now found }
    ensures fits { FitsPointer layout.now result }
{
    if found == 0 {
        return None;
    }
    let words = 1024 * u64::from(layout.pages);
    Some((found - 1) % words + 1)
}

impl WritePointer {
    /// Writes a pointer to this cell: the reference of an object, the index of its first heap word plus 1, or nil.
    /// This buffer is held, which is to have room for two entries.
    pub fn new(at: PointerCell, pointer: Option<u64>, held: Option<Held>) -> WritePointer
        ensures opening { result ≡ opening at pointer held }
        ensures begun { is_busy result.stage ≡ true }
    {
        WritePointer {
            at,
            pointer,
            held,
            stage: WriteStage::LoadOld,
        }
    }

    /// The buffer that is held now.
    pub fn held(&self) -> Option<Held>
        ensures is { result ≡ held_at self.now.held self.now.stage }
        ensures fits { (l : Layout) → SoundWriting l self.now → IsHeld l result }
    {
        match &self.stage {
            WriteStage::ShadeOld(shade) => shade.held,
            WriteStage::ShadeNew(shade) => shade.held,
            WriteStage::LoadOld | WriteStage::Store | WriteStage::Ended => self.held,
        }
    }

    /// Its next step is the store, with which it acts.
    pub fn is_point(&self) -> bool
        ensures { IsTrue result ↔ (self.now.stage ≡ Store) }
    {
        matches!(self.stage, WriteStage::Store)
    }

    /// The word of the new value.
    fn word(&self) -> u64
        ensures { result ≡ pointer_word self.now.pointer }
    {
        match self.pointer {
            Some(reference) => reference,
            None => 0,
        }
    }

    /// Goes on by what the cell held: nil, or a reference.
    fn read_old(&mut self, layout: &Layout, found: u64)
        ensures { self.new ≡ with_old layout.now self.old found }
    {
        match read_as(layout, found) {
            None => self.shade_new(self.held),
            Some(reference) => {
                self.stage = WriteStage::ShadeOld(Shade::new(reference, self.held));
            }
        }
    }

    /// Goes on behind the old value, with this buffer held: the new one is shaded, if it is not nil, and else
    /// stored.
    fn shade_new(&mut self, held: Option<Held>)
        ensures { self.new ≡ behind_old (record self.old { held = held }) }
    {
        self.held = held;
        self.stage = match self.pointer {
            None => WriteStage::Store,
            Some(reference) => WriteStage::ShadeNew(Shade::new(reference, held)),
        };
    }

    /// Goes on after a step of this shading of the old value.
    fn after_old(&mut self, shade: &Shade, out: Option<Shaded>)
        ensures { self.new ≡ after_old self.old shade.now out }
    {
        match out {
            None => self.stage = WriteStage::ShadeOld(*shade),
            Some(_) => self.shade_new(shade.held),
        }
    }

    /// Goes on after a step of this shading of the new value.
    fn after_new(&mut self, shade: &Shade, out: Option<Shaded>)
        ensures { self.new ≡ after_new self.old shade.now out }
    {
        match out {
            None => self.stage = WriteStage::ShadeNew(*shade),
            Some(_) => {
                self.held = shade.held;
                self.stage = WriteStage::Store;
            }
        }
    }

    /// What it has given.
    fn given(&self) -> Option<()>
        ensures { result ≡ given self.now }
    {
        match self.stage {
            WriteStage::Ended => Some(()),
            _ => None,
        }
    }
}

impl Routine for WritePointer {
    ghost use Rattle.gh_barrier.specs.Listing.{listing};

    type Out = ();

    ghost listing = { listing };

    fn next(&self, layout: &Layout) -> Req {
        match &self.stage {
            WriteStage::LoadOld => layout.request(Ask::Load(self.at.cell())),
            WriteStage::ShadeOld(shade) => shade.next(layout),
            WriteStage::ShadeNew(shade) => shade.next(layout),
            WriteStage::Store => layout.request(Ask::Store(self.at.cell(), self.word())),
            WriteStage::Ended => layout.request(Ask::Load(Cell::Touch)),
        }
    }

    fn take(&mut self, layout: &Layout, found: u64) -> Option<()> {
        match &self.stage {
            WriteStage::LoadOld => self.read_old(layout, found),
            WriteStage::ShadeOld(shade) => {
                let mut shade = *shade;
                let out = shade.take(layout, found);
                self.after_old(&shade, out);
            }
            WriteStage::ShadeNew(shade) => {
                let mut shade = *shade;
                let out = shade.take(layout, found);
                self.after_new(&shade, out);
            }
            WriteStage::Store => self.stage = WriteStage::Ended,
            WriteStage::Ended => {}
        }
        self.given()
    }
}
