//! The routine that gives a buffer back.

ghost use Rattle.std.specs.Prelude.{◌≡◌};
ghost use Rattle.gh_base.specs.declared.layout.Layout.{Layout};
ghost use Rattle.gh_base.specs.Holding.{IsHeld};
ghost use Rattle.gh_wbuf.specs.BufferGiving.{given, held_at, opening};
ghost use Rattle.gh_wbuf.specs.Sound.{SoundBufferGiving};

use crate::try_buffer::give_back;
use gh_base::{Ask, Cell, Held, Layout, Req, Routine};

/// The stages of the routine that gives a buffer back.
#[derive(Clone, Copy, Debug, PartialEq, Eq)]
pub enum GiveStage {
    /// It gives this buffer back.
    Give(Held),
    /// It has ended, and holds none.
    Ended,
}

/// Gives a held buffer back, so that any seat may take it (Go's `gcWork.dispose`, mgcwork.go).
///
/// It writes the buffer's word: the count that its holder knows, and nobody as the holder.
#[derive(Clone, Copy, Debug, PartialEq, Eq)]
pub struct GiveBuffer {
    /// Its stage.
    pub stage: GiveStage,
}

impl GiveBuffer {
    /// Gives this buffer back.
    pub fn new(held: Held) -> GiveBuffer
        ensures { result ≡ opening held }
    {
        GiveBuffer {
            stage: GiveStage::Give(held),
        }
    }

    /// The buffer that is held now, if any.
    pub fn held(&self) -> Option<Held>
        ensures is { result ≡ held_at self.now.stage }
        ensures fits { (l : Layout) → SoundBufferGiving l self.now → IsHeld l result }
    {
        match self.stage {
            GiveStage::Give(held) => Some(held),
            GiveStage::Ended => None,
        }
    }

    /// What it has given.
    fn given(&self) -> Option<()>
        ensures { result ≡ given self.now }
    {
        match self.stage {
            GiveStage::Ended => Some(()),
            GiveStage::Give(_) => None,
        }
    }
}

impl Routine for GiveBuffer {
    ghost use Rattle.gh_wbuf.specs.BufferGiving.{listing};

    type Out = ();

    ghost listing = { listing };

    fn next(&self, layout: &Layout) -> Req {
        match self.stage {
            GiveStage::Give(held) => layout.request(give_back(held)),
            GiveStage::Ended => layout.request(Ask::Load(Cell::Touch)),
        }
    }

    fn take(&mut self, _layout: &Layout, _found: u64) -> Option<()> {
        self.stage = GiveStage::Ended;
        self.given()
    }
}
