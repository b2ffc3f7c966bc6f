//! The routine that stops the world.

ghost use Rattle.std.specs.Prelude.{◌≡◌, ◌<◌, ◌^◌};
ghost use Rattle.gh_coord.specs.Stopping.{acks_of, asks, behind, given, is_acknowledged, opening, stores_phase};

use gh_base::{Ask, Cell, GONE, Layout, Phase, PhaseWord, Req, Routine};

/// The stages of a stop.
#[derive(Clone, Copy)]
pub enum StopStage {
    /// It stores the phase word: the world is to stop.
    StorePhase,
    /// It loads this acknowledgement until it is that of the stop.
    Await(u32),
    /// It has ended.
    Ended,
}

/// Stops the world (Go's `stopTheWorldWithSema`, proc.go).
///
/// It stores the phase word with the number of this stop. Then it loads the acknowledgements of the
/// processors and the workers in their order, each again and again until it is the number of this stop or
/// that of an actor that is done.
#[derive(Clone, Copy)]
pub struct Stop {
    /// The number of the stop.
    pub stops: u64,
    /// Where it is.
    pub stage: StopStage,
}

impl Stop {
    /// The stop of this number.
    pub fn new(stops: u64) -> Stop
        ensures { result ≡ opening stops }
    {
        Stop {
            stops,
            stage: StopStage::StorePhase,
        }
    }

    /// Its next step stores the phase word.
    pub fn stores_phase(&self) -> bool
        ensures { result ≡ stores_phase self.now.stage }
    {
        matches!(self.stage, StopStage::StorePhase)
    }

    /// This word acknowledges the stop, or is that of an actor that is done.
    fn is_acknowledged(&self, found: u64) -> bool
        ensures { result ≡ is_acknowledged self.now.stops found }
    {
        found == self.stops || found == GONE
    }

    /// What follows behind this acknowledgement.
    fn behind(layout: &Layout, ack: u32) -> StopStage
        requires { ack < acks_of layout.now }
        ensures { result ≡ behind layout.now ack }
    {
        if ack + 1 < layout.procs + layout.workers {
            StopStage::Await(ack + 1)
        } else {
            StopStage::Ended
        }
    }

    /// The step that it asks for.
    fn ask(&self) -> Ask
        requires { self.now.stops < 2 ^ 62 }
        ensures { result ≡ asks self.now }
    {
        match self.stage {
            StopStage::StorePhase => {
                let word = PhaseWord {
                    stops: self.stops,
                    phase: Phase::Stop,
                };
                Ask::Store(Cell::Phase, word.pack())
            }
            StopStage::Await(ack) => Ask::Load(Cell::Ack(ack)),
            StopStage::Ended => Ask::Load(Cell::Touch),
        }
    }

    /// What it has given.
    fn given(&self) -> Option<()>
        ensures { result ≡ given self.now }
    {
        match self.stage {
            StopStage::Ended => Some(()),
            _ => None,
        }
    }
}

impl Routine for Stop {
    ghost use Rattle.gh_coord.specs.Stopping.{listing};

    type Out = ();

    ghost listing = { listing };

    fn next(&self, layout: &Layout) -> Req {
        layout.request(self.ask())
    }

    fn take(&mut self, layout: &Layout, found: u64) -> Option<()> {
        match self.stage {
            StopStage::StorePhase => self.stage = StopStage::Await(0),
            StopStage::Await(ack) => {
                if self.is_acknowledged(found) {
                    self.stage = Stop::behind(layout, ack);
                }
            }
            StopStage::Ended => {}
        }
        self.given()
    }
}
