//! The routine that opens a cycle.

ghost use Rattle.std.specs.Prelude.{◌≡◌, ◌<◌, ◌^◌};
ghost use Rattle.gh_coord.specs.Opening.{asks, behind, found_at, given, opening, stores_phase};

use crate::pacing::taken;
use gh_base::{Ask, Cell, Layout, Phase, PhaseWord, Req, Routine};
use gh_pacer::{NEVER, slack};

/// The stages in which a cycle is opened.
#[derive(Clone, Copy)]
pub enum OpenStage {
    /// It clears the request for a cycle.
    ClearWant,
    /// It begins the globals anew.
    ClearGcur,
    /// It clears the objects counted.
    ClearTally,
    /// It clears the bytes counted.
    ClearLive,
    /// It stores a trigger that no allocation reaches.
    StoreTrigger,
    /// It loads the heap's bytes, of which the slack is what is left to the goal.
    LoadHeap,
    /// It stores the words that are to be scanned.
    StoreWork,
    /// It stores the bytes that may be allocated.
    StoreSlack,
    /// It stores the number of the cycle.
    StoreBegun,
    /// It stores the phase word: marking is on, and the world runs.
    StorePhase,
    /// It has ended.
    Ended,
}

/// Opens a cycle (Go's `gcStart`, mgc.go, from its stop to its start of the world).
///
/// While the world is stopped it clears the request, the cursor of the globals and the counts, stores what
/// paces the cycle, and then the cycle's number; with the phase word marking is on.
#[derive(Clone, Copy)]
pub struct Open {
    /// The number of stops.
    pub stops: u64,
    /// The number of the cycle.
    pub cycle: u64,
    /// The words that are to be scanned.
    pub work: u64,
    /// The most bytes that the heap is to have when the cycle ends, if there is such a goal.
    pub goal: Option<u64>,
    /// The heap's bytes, once they are found.
    pub heap: u64,
    /// Where it is.
    pub stage: OpenStage,
}

impl Open {
    /// Opens the cycle of this number, with this number of stops. So many words are to be scanned in it, and the heap
    /// is to have so many bytes at most when it ends, if there is such a goal.
    pub fn new(stops: u64, cycle: u64, work: u64, goal: Option<u64>) -> Open
        ensures { result ≡ opening stops cycle work goal }
    {
        Open {
            stops,
            cycle,
            work,
            goal,
            heap: 0,
            stage: OpenStage::ClearWant,
        }
    }

    /// Its next step stores the phase word.
    pub fn stores_phase(&self) -> bool
        ensures { result ≡ stores_phase self.now.stage }
    {
        matches!(self.stage, OpenStage::StorePhase)
    }

    /// The step that it asks for.
    fn ask(&self) -> Ask
        requires { self.now.stops < 2 ^ 62 }
        ensures { result ≡ asks self.now }
    {
        match self.stage {
            OpenStage::ClearWant => Ask::Store(Cell::Want, 0),
            OpenStage::ClearGcur => Ask::Store(Cell::Gcur, 0),
            OpenStage::ClearTally => Ask::Store(Cell::Tally, 0),
            OpenStage::ClearLive => Ask::Store(Cell::Live, 0),
            OpenStage::StoreTrigger => Ask::Store(Cell::Trigger, NEVER),
            OpenStage::LoadHeap => Ask::Load(Cell::Heap),
            OpenStage::StoreWork => Ask::Store(Cell::Work, self.work),
            OpenStage::StoreSlack => Ask::Store(Cell::Slack, slack(self.heap, self.goal)),
            OpenStage::StoreBegun => Ask::Store(Cell::Begun, self.cycle),
            OpenStage::StorePhase => {
                let word = PhaseWord {
                    stops: self.stops,
                    phase: Phase::Mark,
                };
                Ask::Store(Cell::Phase, word.pack())
            }
            OpenStage::Ended => Ask::Load(Cell::Touch),
        }
    }

    /// The stage behind its own.
    fn behind(&self) -> OpenStage
        ensures { result ≡ behind self.now.stage }
    {
        match self.stage {
            OpenStage::ClearWant => OpenStage::ClearGcur,
            OpenStage::ClearGcur => OpenStage::ClearTally,
            OpenStage::ClearTally => OpenStage::ClearLive,
            OpenStage::ClearLive => OpenStage::StoreTrigger,
            OpenStage::StoreTrigger => OpenStage::LoadHeap,
            OpenStage::LoadHeap => OpenStage::StoreWork,
            OpenStage::StoreWork => OpenStage::StoreSlack,
            OpenStage::StoreSlack => OpenStage::StoreBegun,
            OpenStage::StoreBegun => OpenStage::StorePhase,
            OpenStage::StorePhase | OpenStage::Ended => OpenStage::Ended,
        }
    }

    /// The heap's bytes that it has found by then.
    fn found_at(&self, found: u64) -> u64
        ensures { result ≡ found_at self.now self.now.stage found }
    {
        match self.stage {
            OpenStage::LoadHeap => taken(found),
            _ => self.heap,
        }
    }

    /// What it has given.
    fn given(&self) -> Option<()>
        ensures { result ≡ given self.now }
    {
        match self.stage {
            OpenStage::Ended => Some(()),
            _ => None,
        }
    }
}

impl Routine for Open {
    ghost use Rattle.gh_coord.specs.Opening.{listing};

    type Out = ();

    ghost listing = { listing };

    fn next(&self, layout: &Layout) -> Req {
        layout.request(self.ask())
    }

    fn take(&mut self, _layout: &Layout, found: u64) -> Option<()> {
        self.heap = self.found_at(found);
        self.stage = self.behind();
        self.given()
    }
}
