//! The routine that hands scanned words over to the bank.

ghost use Rattle.std.specs.Prelude.{◌≡◌};
ghost use Rattle.gh_credit.specs.Earning.{given, opening};

use gh_base::{Ask, Cell, Layout, Req, Routine};

/// The words that a worker scans before it hands them over to the bank (Go's `gcCreditSlack`, mgcpacer.go).
pub const CREDIT_SLACK: u64 = 2000;

/// The stages of the routine that hands scanned words over.
#[derive(Clone, Copy, Debug, PartialEq, Eq)]
pub enum EarnStage {
    /// It adds the words to the bank.
    Add,
    /// It has ended.
    Ended,
}

/// Hands so many scanned words over to the bank (Go's `gcFlushBgCredit`, mgcmark.go).
///
/// It adds them by one atomic step, so that none is lost where others hand over or draw at the same time.
#[derive(Clone, Copy, Debug, PartialEq, Eq)]
pub struct Earn {
    /// The words that it hands over.
    pub words: u64,
    /// Its stage.
    pub stage: EarnStage,
}

impl Earn {
    /// Hands so many words over.
    pub fn new(words: u64) -> Earn
        ensures { result ≡ opening words }
    {
        Earn {
            words,
            stage: EarnStage::Add,
        }
    }

    /// What it has given.
    fn given(&self) -> Option<()>
        ensures { result ≡ given self.now }
    {
        match self.stage {
            EarnStage::Ended => Some(()),
            EarnStage::Add => None,
        }
    }
}

impl Routine for Earn {
    ghost use Rattle.gh_credit.specs.Earning.{listing};

    type Out = ();

    ghost listing = { listing };

    fn next(&self, layout: &Layout) -> Req {
        match self.stage {
            EarnStage::Add => layout.request(Ask::Add(Cell::Bank, self.words)),
            EarnStage::Ended => layout.request(Ask::Load(Cell::Touch)),
        }
    }

    fn take(&mut self, _layout: &Layout, _found: u64) -> Option<()> {
        self.stage = EarnStage::Ended;
        self.given()
    }
}
