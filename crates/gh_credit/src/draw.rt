//! The routine that draws on the bank.

ghost use Rattle.std.specs.Prelude.{◌≡◌};
ghost use Rattle.gh_credit.specs.Drawing.{after_load, after_swap, given, most_drawn, opening};

use gh_base::{Ask, Cell, Layout, Req, Routine};

/// The stages of the routine that draws on the bank.
#[derive(Clone, Copy, Debug, PartialEq, Eq)]
pub enum DrawStage {
    /// It loads what the bank holds.
    LoadBank,
    /// It takes words out of the bank, which held so many when it looked.
    Swap(u64),
    /// It has ended, and has taken so many words.
    Ended(u64),
}

/// Takes words that others have scanned out of the bank, as many as are owed and as it holds (the part of Go's
/// `gcAssistAlloc`, mgcmark.go, that steals from `bgScanCredit`).
///
/// It loads the bank and swaps the word for what is left. Where another has changed it in between, nothing is taken:
/// it is a single try, and who owes scans instead. With a plain store in place of the swap the words that others
/// hand over or draw meanwhile would be lost, or drawn twice.
#[derive(Clone, Copy, Debug, PartialEq, Eq)]
pub struct Draw {
    /// The words that are owed.
    pub owed: u64,
    /// Its stage.
    pub stage: DrawStage,
}

impl Draw {
    /// So many words are owed.
    pub fn new(owed: u64) -> Draw
        ensures { result ≡ opening owed }
    {
        Draw {
            owed,
            stage: DrawStage::LoadBank,
        }
    }

    /// The most that it takes of a bank that holds so many words.
    fn most(&self, bank: u64) -> u64
        ensures { result ≡ most_drawn self.now bank }
    {
        bank.min(self.owed)
    }

    /// Goes on where the bank holds so many words: it ends where none is to be taken.
    fn after_load(&self, bank: u64) -> DrawStage
        ensures { result ≡ after_load self.now bank }
    {
        if self.most(bank) == 0 {
            DrawStage::Ended(0)
        } else {
            DrawStage::Swap(bank)
        }
    }

    /// Ends behind the swap, which found this.
    fn after_swap(&self, bank: u64, found: u64) -> DrawStage
        ensures { result ≡ after_swap self.now bank found }
    {
        if found == bank {
            DrawStage::Ended(self.most(bank))
        } else {
            DrawStage::Ended(0)
        }
    }

    /// What it has given: the words that it has taken.
    fn given(&self) -> Option<u64>
        ensures { result ≡ given self.now }
    {
        match self.stage {
            DrawStage::Ended(drawn) => Some(drawn),
            DrawStage::LoadBank | DrawStage::Swap(_) => None,
        }
    }
}

impl Routine for Draw {
    ghost use Rattle.gh_credit.specs.Drawing.{listing};

    type Out = u64;

    ghost listing = { listing };

    fn next(&self, layout: &Layout) -> Req {
        match self.stage {
            DrawStage::LoadBank => layout.request(Ask::Load(Cell::Bank)),
            DrawStage::Swap(bank) => {
                layout.request(Ask::Swap(Cell::Bank, bank, bank - self.most(bank)))
            }
            DrawStage::Ended(_) => layout.request(Ask::Load(Cell::Touch)),
        }
    }

    fn take(&mut self, _layout: &Layout, found: u64) -> Option<u64> {
        self.stage = match self.stage {
            DrawStage::LoadBank => self.after_load(found),
            DrawStage::Swap(bank) => self.after_swap(bank, found),
            DrawStage::Ended(drawn) => DrawStage::Ended(drawn),
        };
        self.given()
    }
}
