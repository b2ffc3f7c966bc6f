//! The routine that looks whether marking is over.

ghost use Rattle.std.specs.Prelude.{◌≡◌, ◌<◌, IfSome, IsTrue, Option, false};
ghost use Rattle.gh_base.specs.Cells.{InRange};
ghost use Rattle.gh_coord.specs.Watching.{Sound, asks, behind, cell_at, given, goes, goes_at, is_wanted, opening, words_of};
ghost use Rattle.gh_coord.specs.declared.watch.WatchStage.TheVariants.{Look};

use gh_base::{Ask, BufferWord, Cell, Layout, Req, Routine};

/// What was found of the words that are watched.
#[derive(Clone, Copy, Debug, PartialEq, Eq)]
pub enum Watched {
    /// Each was as wanted.
    All,
    /// One was not, and those behind it were not looked at.
    NotYet,
}

/// The stages of a look at the words that are watched.
#[derive(Clone, Copy)]
pub enum WatchStage {
    /// It loads the word of this number.
    Look(u32),
    /// It has ended, and has found this.
    Ended(Watched),
}

/// Looks once at the words that say whether marking is over (what Go's `gcMarkDone` asks of its work
/// buffers and root jobs, mgc.go).
///
/// The words are, in this order: the cursor of the globals, which is to be behind the last of them; of each
/// goroutine the last cycle in which its stack was scanned, which is to be no earlier than this one; and
/// each grey work buffer, which is to be held or empty. It ends at the first that is not as wanted.
#[derive(Clone, Copy)]
pub struct Watch {
    /// The number of the cycle.
    pub cycle: u64,
    /// Where it is.
    pub stage: WatchStage,
}

impl Watch {
    /// Looks at the words of the cycle of this number.
    pub fn new(cycle: u64) -> Watch
        ensures { result ≡ opening cycle }
    {
        Watch {
            cycle,
            stage: WatchStage::Look(0),
        }
    }

    /// The word of this number.
    fn cell(layout: &Layout, i: u32) -> Cell
        ensures { result ≡ cell_at layout.now i }
    {
        if i == 0 {
            return Cell::Gcur;
        }
        if i - 1 < layout.goroutines {
            Cell::Scanned(i - 1)
        } else {
            Cell::Buffer(i - 1 - layout.goroutines)
        }
    }

    /// The word is as wanted where this was found in it.
    #[inline(always)]
    fn is_wanted(&self, layout: &Layout, cell: Cell, found: u64) -> bool
        ensures { result ≡ is_wanted layout.now self.now.cycle cell found }
    {
        match cell {
            Cell::Gcur => found >= u64::from(layout.globals),
            Cell::Scanned(_) => found >= self.cycle,
            Cell::Buffer(_) => {
                let buffer = BufferWord::unpack(found);
                buffer.holder != 0 || buffer.count == 0
            }
            _ => true,
        }
    }

    /// What follows behind the word of this number.
    fn behind(layout: &Layout, i: u32) -> WatchStage
        requires { i < words_of layout.now }
        ensures { result ≡ behind layout.now i }
    {
        if i + 1 < 1 + layout.goroutines + layout.buffers() {
            WatchStage::Look(i + 1)
        } else {
            WatchStage::Ended(Watched::All)
        }
    }

    /// The step that it asks for.
    fn ask(&self, layout: &Layout) -> Ask
        ensures { result ≡ asks layout.now self.now }
    {
        match self.stage {
            WatchStage::Look(i) => Ask::Load(Watch::cell(layout, i)),
            WatchStage::Ended(_) => Ask::Load(Cell::Touch),
        }
    }

    /// Goes on by what the word of this number holds.
    fn look(&mut self, layout: &Layout, i: u32, found: u64)
        requires { i < words_of layout.now }
        ensures { self.new ≡ goes_at layout.now self.old (Look i) found }
    {
        let cell = Watch::cell(layout, i);
        self.stage = if self.is_wanted(layout, cell, found) {
            Watch::behind(layout, i)
        } else {
            WatchStage::Ended(Watched::NotYet)
        };
    }

    /// The cell that its next step loads, where there is one.
    #[inline(always)]
    pub fn looks(&self, layout: &Layout) -> Option<Cell>
        ensures asks { IfSome result (λ c. asks layout.now self.now ≡ Ask.Load c) }
        ensures busy { IfSome result (λ c. given self.now ≡ Option.None) }
        ensures within { Sound layout.now self.now → IfSome result (λ c. InRange layout.now c) }
    {
        match self.stage {
            WatchStage::Look(i) => Some(Watch::cell(layout, i)),
            WatchStage::Ended(_) => None,
        }
    }

    /// Goes on to the next word, where this one is as wanted and another stands behind it, and answers whether it did. Such a
    /// step changes one number; where it did not, nothing has changed, and [`take`](Routine::take) makes the step.
    #[inline(always)]
    pub fn goes_on(&mut self, layout: &Layout, found: u64) -> bool
        requires sound { Sound layout.now self.old }
        ensures goes { IsTrue result → self.new ≡ goes layout.now self.old found }
        ensures busy { IsTrue result → given self.new ≡ Option.None }
        ensures sound { Sound layout.now self.new }
        ensures stays { result ≡ false → self.new ≡ self.old }
    {
        let WatchStage::Look(i) = self.stage else {
            return false;
        };
        if i + 1 >= 1 + layout.goroutines + layout.buffers()
            || !self.is_wanted(layout, Watch::cell(layout, i), found)
        {
            return false;
        }
        self.stage = WatchStage::Look(i + 1);
        true
    }

    /// What its step found is not as wanted: it ends with that.
    #[inline(always)]
    pub fn refuses(&self, layout: &Layout, found: u64) -> bool
        ensures { IsTrue result → given (goes layout.now self.now found) ≡ Option.Some Watched.NotYet }
    {
        match self.stage {
            WatchStage::Look(i) => !self.is_wanted(layout, Watch::cell(layout, i), found),
            WatchStage::Ended(_) => false,
        }
    }

    /// What it has given.
    fn given(&self) -> Option<Watched>
        ensures { result ≡ given self.now }
    {
        match self.stage {
            WatchStage::Ended(watched) => Some(watched),
            WatchStage::Look(_) => None,
        }
    }
}

impl Routine for Watch {
    ghost use Rattle.gh_coord.specs.Watching.{listing};

    type Out = Watched;

    ghost listing = { listing };

    fn next(&self, layout: &Layout) -> Req {
        layout.request(self.ask(layout))
    }

    fn take(&mut self, layout: &Layout, found: u64) -> Option<Watched> {
        match self.stage {
            WatchStage::Look(i) => self.look(layout, i, found),
            WatchStage::Ended(_) => {}
        }
        self.given()
    }
}
