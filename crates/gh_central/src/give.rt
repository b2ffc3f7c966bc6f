//! Giving a cached span back.

ghost use Rattle.std.specs.Prelude.{◌≡◌};
ghost use Rattle.gh_base.specs.Packing.{FitsHead, head_word};
ghost use Rattle.gh_central.specs.GiveBack.{given, opening};
ghost use Rattle.gh_central.specs.SweptPass.{owned_by};

use gh_base::{Ask, Cell, Layout, PageWord, Req, Routine, SpanHead};

/// The stages of the routine that gives a span back.
#[derive(Clone, Copy, Debug, PartialEq, Eq)]
pub enum GiveStage {
    /// It writes the head word.
    Write,
    /// It has ended.
    Ended,
}

/// Gives a cached span back, so that any seat may take it (Go's `mcentral.uncacheSpan`, in
/// mcentral.go). Whoever runs it has the heap's lock.
///
/// It writes the span's head word with nobody as its owner, and ends.
#[derive(Clone, Copy)]
pub struct GiveBack {
    /// The span's first page.
    pub page: u32,
    /// What its head word says.
    pub head: SpanHead,
    /// Its stage.
    pub stage: GiveStage,
}

impl GiveBack {
    /// Gives back the span whose first page this is, and whose head word says this.
    pub fn new(page: u32, head: SpanHead) -> GiveBack
        ensures { result ≡ opening page head }
    {
        GiveBack {
            page,
            head,
            stage: GiveStage::Write,
        }
    }

    /// The head word with nobody as its owner.
    fn given_word(&self) -> u64
        requires { FitsHead self.now.head }
        ensures { result ≡ head_word (owned_by 0 self.now.head) }
    {
        PageWord::Head(SpanHead {
            owner: 0,
            ..self.head
        })
        .pack()
    }

    /// What it has given.
    fn given(&self) -> Option<()>
        ensures { result ≡ given self.now }
    {
        match self.stage {
            GiveStage::Write => None,
            GiveStage::Ended => Some(()),
        }
    }
}

impl Routine for GiveBack {
    ghost use Rattle.gh_central.specs.GiveBack.{listing};

    type Out = ();

    ghost listing = { listing };

    fn next(&self, layout: &Layout) -> Req {
        let ask = match self.stage {
            GiveStage::Write => Ask::Store(Cell::Page(self.page), self.given_word()),
            GiveStage::Ended => Ask::Load(Cell::Touch),
        };
        layout.request(ask)
    }

    fn take(&mut self, _layout: &Layout, _found: u64) -> Option<()> {
        self.stage = GiveStage::Ended;
        self.given()
    }
}
