//! The routine that reads what the sweep has counted.

ghost use Rattle.std.specs.Prelude.{◌≡◌};
ghost use Rattle.gh_coord.specs.Counting.{asks, given, opening};

use gh_base::{Ask, Cell, Layout, Req, Routine, TallyWord};

/// What the sweep of a cycle has counted.
#[derive(Clone, Copy, Debug, PartialEq, Eq)]
pub struct Counted {
    /// The objects marked and freed.
    pub tally: TallyWord,
    /// The bytes marked.
    pub live: u64,
}

/// The stages in which the counts are read.
#[derive(Clone, Copy)]
pub enum CountStage {
    /// It loads the objects marked and freed.
    LoadTally,
    /// It loads the bytes marked, and has found this many objects.
    LoadLive(TallyWord),
    /// It has ended, and has found this.
    Ended(Counted),
}

/// Reads what all sweeps of the cycle have counted. Each span is swept by then, so no count is still to come, though
/// goroutines run: an object that is made meanwhile is in none of them.
#[derive(Clone, Copy)]
pub struct Count {
    /// Where it is.
    pub stage: CountStage,
}

impl Count {
    /// Reads the counts of this heap.
    pub fn new() -> Count
        ensures { result ≡ opening }
    {
        Count {
            stage: CountStage::LoadTally,
        }
    }

    /// The step that it asks for.
    fn ask(&self) -> Ask
        ensures { result ≡ asks self.now }
    {
        match self.stage {
            CountStage::LoadTally => Ask::Load(Cell::Tally),
            CountStage::LoadLive(_) => Ask::Load(Cell::Live),
            CountStage::Ended(_) => Ask::Load(Cell::Touch),
        }
    }

    /// What it has given.
    fn given(&self) -> Option<Counted>
        ensures { result ≡ given self.now }
    {
        match self.stage {
            CountStage::Ended(counted) => Some(counted),
            _ => None,
        }
    }
}

impl Routine for Count {
    ghost use Rattle.gh_coord.specs.Counting.{listing};

    type Out = Counted;

    ghost listing = { listing };

    fn next(&self, layout: &Layout) -> Req {
        layout.request(self.ask())
    }

    fn take(&mut self, _layout: &Layout, found: u64) -> Option<Counted> {
        match self.stage {
            CountStage::LoadTally => self.stage = CountStage::LoadLive(TallyWord::unpack(found)),
            CountStage::LoadLive(tally) => {
                self.stage = CountStage::Ended(Counted { tally, live: found });
            }
            CountStage::Ended(_) => {}
        }
        self.given()
    }
}
