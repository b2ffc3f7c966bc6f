//! The routine that writes the pointer bits of a new object's slot.

ghost use Rattle.std.specs.Prelude.{◌≡◌, ◌+◌, ◌*◌, ◌^◌, ◌<◌, ◌≤◌};
ghost use Rattle.gh_base.specs.Cells.{InRange};
ghost use Rattle.gh_base.specs.Steps.{cell_of};
ghost use Rattle.gh_bitmap.specs.SetPointers.{asks, given, goes_at, next_stage, opening};
ghost use Rattle.gh_bitmap.specs.Sound.{Sound};

use crate::bits::{pointer_bits, slot_bits};
use gh_base::limits::MOST_PAGES;
use gh_base::{Ask, Cell, Layout, Req, Routine, Shape, modulo};
use std::marker::Model;

/// The stages of the routine that sets pointer bits.
#[derive(Clone, Copy, Debug, PartialEq, Eq)]
pub enum SetStage {
    /// It clears the slot's bits in this word of the bitmap.
    Clear(u32),
    /// It sets the bits of the pointer fields in this word, of which there is one at least.
    Set(u32),
    /// It has ended.
    Ended,
}

/// Writes the bits of an object's slot by the shape of its type (Go's `heapBitsSetType`, mbitmap.go).
///
/// For each word of the bitmap that has bits of the slot, in ascending order, it clears the slot's
/// bits, and then sets those of the pointer fields, if the word has any. Each is one atomic step that
/// leaves the other bits of the word as they are: they are those of other slots, which other actors
/// may write meanwhile.
#[derive(Debug, Drop)]
pub struct SetPointers<'s> {
    shape: &'s Shape,
    at: u32,
    slot: u32,
    stage: SetStage,
}

impl<'s> Model for SetPointers<'s> {
    ghost use Rattle.gh_bitmap.specs.SetPointers.{PointerSetting};

    ghost Value = { PointerSetting };

    ghost view = { λ s. record { shape = s.shape.now; at = s.at; slot = s.slot; stage = s.stage } };
}

impl<'s> SetPointers<'s> {
    /// Writes the bits of an object of this shape whose first heap word is `at`, in a slot of `slot`
    /// words.
    pub fn new(shape: &'s Shape, at: u32, slot: u32) -> SetPointers<'s>
        ensures { result ≡ opening shape.now at slot }
    {
        SetPointers {
            shape,
            at,
            slot,
            stage: SetStage::Clear(at / 64),
        }
    }

    /// The step that it asks for.
    fn ask(&self, layout: &Layout) -> Ask
        requires { Sound layout.now self.now }
        ensures asks { result ≡ asks layout.now self.now }
        ensures within { InRange layout.now (cell_of result) }
    {
        let row = 16 * layout.pages;
        match self.stage {
            SetStage::Clear(i) => {
                let others = u64::MAX - slot_bits(self.at, self.slot, i);
                Ask::And(Cell::Bitmap(modulo(i, row)), others)
            }
            SetStage::Set(i) => {
                let pointers = pointer_bits(self.shape, self.at, i);
                Ask::Or(Cell::Bitmap(modulo(i, row)), pointers)
            }
            SetStage::Ended => Ask::Load(Cell::Touch),
        }
    }

    /// The next word of the bitmap that has bits of the slot, if there is one.
    fn next_stage(&self, i: u32) -> SetStage
        requires word { i < 16 * MOST_PAGES }
        requires slot { self.now.at + self.now.slot ≤ 1024 * MOST_PAGES }
        ensures { result ≡ next_stage self.now i }
    {
        if 64 * (i + 1) < self.at + self.slot {
            SetStage::Clear(i + 1)
        } else {
            SetStage::Ended
        }
    }

    /// Its stage after its step.
    fn go(&self, layout: &Layout) -> SetStage
        requires { Sound layout.now self.now }
        ensures { result ≡ goes_at self.now self.now.stage }
    {
        match self.stage {
            SetStage::Clear(i) => {
                if pointer_bits(self.shape, self.at, i) == 0 {
                    self.next_stage(i)
                } else {
                    SetStage::Set(i)
                }
            }
            SetStage::Set(i) => self.next_stage(i),
            SetStage::Ended => SetStage::Ended,
        }
    }

    /// What it has given.
    fn given(&self) -> Option<()>
        ensures { result ≡ given self.now }
    {
        match self.stage {
            SetStage::Ended => Some(()),
            _ => None,
        }
    }
}

impl<'s> Routine for SetPointers<'s> {
    ghost use Rattle.gh_bitmap.specs.SetPointers.{listing};

    type Out = ();

    ghost listing = { listing };

    #[inline(always)]
    fn next(&self, layout: &Layout) -> Req {
        layout.request(self.ask(layout))
    }

    #[inline(always)]
    fn take(&mut self, layout: &Layout, _found: u64) -> Option<()> {
        self.stage = self.go(layout);
        self.given()
    }
}
