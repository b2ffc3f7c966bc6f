//! The routine that ends marking.

ghost use Rattle.std.specs.Prelude.{◌≡◌, ◌<◌, ◌^◌};
ghost use Rattle.gh_base.specs.Packing.{phase_word};
ghost use Rattle.gh_coord.specs.Closing.{asks, given, opening, phase_at, stores_phase};

use gh_base::{Ask, Cell, Layout, Phase, PhaseWord, Req, Routine};

/// The stages in which marking is ended.
#[derive(Clone, Copy)]
pub enum CloseStage {
    /// It loads the credit that is left.
    LoadBank,
    /// It clears the credit.
    ClearBank,
    /// It stores the sweep generation.
    StoreGen,
    /// It stores the phase word: the world runs, and marking is off.
    StorePhase,
    /// It has ended.
    Ended,
}

/// Ends marking and lets the world run (Go's `gcMarkTermination`, mgc.go, up to the sweep).
///
/// Credit for scanning is of no use once nothing is left to scan: what is found of it has lapsed, and the
/// bank is cleared. Then the next sweep generation is stored, and with that each span is unswept. The phase word
/// follows: the spans are swept while goroutines run. It follows the generation, since who goes on loads the phase
/// and then the generation. With the old one an actor would take unswept spans for swept ones, and place objects
/// that the sweep frees.
#[derive(Clone, Copy)]
pub struct Close {
    /// The credit that has lapsed by now, in words modulo 2^64.
    pub lapsed: u64,
    /// The sweep generation that it stores.
    pub generation: u64,
    /// The number of stops.
    pub stops: u64,
    /// Where it is.
    pub stage: CloseStage,
}

impl Close {
    /// Ends marking with this sweep generation and number of stops, where so much credit has lapsed before.
    pub fn new(lapsed: u64, generation: u64, stops: u64) -> Close
        ensures { result ≡ opening lapsed generation stops }
    {
        Close {
            lapsed,
            generation,
            stops,
            stage: CloseStage::LoadBank,
        }
    }

    /// Its next step stores the phase word.
    pub fn stores_phase(&self) -> bool
        ensures { result ≡ stores_phase self.now.stage }
    {
        matches!(self.stage, CloseStage::StorePhase)
    }

    /// The phase word that it stores.
    fn phase_word(&self) -> u64
        requires { self.now.stops < 2 ^ 62 }
        ensures { result ≡ phase_word (phase_at self.now) }
    {
        PhaseWord {
            stops: self.stops,
            phase: Phase::Off,
        }
        .pack()
    }

    /// The step that it asks for.
    fn ask(&self) -> Ask
        requires { self.now.stops < 2 ^ 62 }
        ensures { result ≡ asks self.now }
    {
        match self.stage {
            CloseStage::LoadBank => Ask::Load(Cell::Bank),
            CloseStage::ClearBank => Ask::Store(Cell::Bank, 0),
            CloseStage::StoreGen => Ask::Store(Cell::Gen, self.generation),
            CloseStage::StorePhase => Ask::Store(Cell::Phase, self.phase_word()),
            CloseStage::Ended => Ask::Load(Cell::Touch),
        }
    }

    /// What it has given: the credit that has lapsed.
    fn given(&self) -> Option<u64>
        ensures { result ≡ given self.now }
    {
        match self.stage {
            CloseStage::Ended => Some(self.lapsed),
            _ => None,
        }
    }
}

impl Routine for Close {
    ghost use Rattle.gh_coord.specs.Closing.{listing};

    type Out = u64;

    ghost listing = { listing };

    fn next(&self, layout: &Layout) -> Req {
        layout.request(self.ask())
    }

    fn take(&mut self, layout: &Layout, found: u64) -> Option<u64> {
        match self.stage {
            CloseStage::LoadBank => {
                self.lapsed = self.lapsed.wrapping_add(found);
                self.stage = CloseStage::ClearBank;
            }
            CloseStage::ClearBank => self.stage = CloseStage::StoreGen,
            CloseStage::StoreGen => self.stage = CloseStage::StorePhase,
            CloseStage::StorePhase => self.stage = CloseStage::Ended,
            CloseStage::Ended => {}
        }
        self.given()
    }
}
