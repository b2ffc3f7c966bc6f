//! The routine that reads whether a heap word is a pointer field.

ghost use Rattle.std.specs.Prelude.{◌≡◌};
ghost use Rattle.gh_base.specs.Cells.{InRange};
ghost use Rattle.gh_base.specs.Steps.{cell_of};
ghost use Rattle.gh_bitmap.specs.ReadPointer.{asks, given, opening};

use gh_base::{Ask, Cell, Layout, Req, Routine, modulo};

/// The stages of the routine that reads a pointer bit.
#[derive(Clone, Copy, Debug, PartialEq, Eq)]
pub enum ReadStage {
    /// It loads the word of the bitmap that has the bit.
    Load,
    /// It has ended.
    Ended {
        /// The heap word is a pointer field.
        pointer: bool,
    },
}

/// Reads the bit of one heap word: it ends with whether that word is a pointer field (Go's
/// `heapBits.isPointer`, mbitmap.go).
#[derive(Clone, Copy, Debug, PartialEq, Eq)]
pub struct ReadPointer {
    /// The heap word, which is taken modulo the arena's words.
    pub at: u32,
    /// Its stage.
    pub stage: ReadStage,
}

impl ReadPointer {
    /// Reads the bit of heap word `at`, which is taken modulo the arena's words.
    pub fn new(at: u32) -> ReadPointer
        ensures { result ≡ opening at }
    {
        ReadPointer {
            at,
            stage: ReadStage::Load,
        }
    }

    /// The step that it asks for.
    pub fn ask(&self, layout: &Layout) -> Ask
        ensures asks { result ≡ asks layout.now self.now }
        ensures within { InRange layout.now (cell_of result) }
    {
        match self.stage {
            ReadStage::Load => { Ask::Load(Cell::Bitmap(modulo(self.at / 64, 16 * layout.pages))) }
            ReadStage::Ended { .. } => Ask::Load(Cell::Touch),
        }
    }

    /// What it has given.
    fn given(&self) -> Option<bool>
        ensures { result ≡ given self.now }
    {
        match self.stage {
            ReadStage::Load => None,
            ReadStage::Ended { pointer } => Some(pointer),
        }
    }
}

impl Routine for ReadPointer {
    ghost use Rattle.gh_bitmap.specs.ReadPointer.{listing};

    type Out = bool;

    ghost listing = { listing };

    fn next(&self, layout: &Layout) -> Req {
        layout.request(self.ask(layout))
    }

    fn take(&mut self, _layout: &Layout, found: u64) -> Option<bool> {
        if let ReadStage::Load = self.stage {
            self.stage = ReadStage::Ended {
                pointer: (found >> (self.at % 64)) & 1 == 1,
            };
        }
        self.given()
    }
}
