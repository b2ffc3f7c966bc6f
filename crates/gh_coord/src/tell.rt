//! The routine that tells that a cycle is swept.

ghost use Rattle.std.specs.Prelude.{◌≡◌, ◌<◌, ◌^◌};
ghost use Rattle.gh_base.specs.Packing.{phase_word};
ghost use Rattle.gh_coord.specs.Telling.{asks, given, opening, phase_at, stores_phase, stores_swept};

use gh_base::{Ask, Cell, Layout, Phase, PhaseWord, Req, Routine};

/// The stages in which it is told that a cycle is swept.
#[derive(Clone, Copy)]
pub enum TellStage {
    /// It stores the trigger of the next cycle.
    StoreTrigger,
    /// It stores the number of the cycle.
    StoreSwept,
    /// It stores the phase word, behind the last cycle: the world is done.
    StorePhase,
    /// It has ended.
    Ended,
}

/// Tells that a cycle is swept (what Go's `sweepone` does when it finds no span more, mgcsweep.go).
///
/// Who waits for the cycle goes on by the word of swept cycles. Behind the last cycle the phase word follows: the
/// workers leave then.
#[derive(Clone, Copy)]
pub struct Tell {
    /// The trigger of the next cycle, in bytes.
    pub trigger: u64,
    /// The number of this cycle.
    pub cycle: u64,
    /// The number of stops.
    pub stops: u64,
    /// This is the last cycle.
    pub is_last: bool,
    /// Where it is.
    pub stage: TellStage,
}

impl Tell {
    /// Tells that the cycle of this number is swept, with the trigger of the next. Behind the last cycle the world is
    /// done, with this number of stops.
    pub fn new(trigger: u64, cycle: u64, stops: u64, is_last: bool) -> Tell
        ensures { result ≡ opening trigger cycle stops is_last }
    {
        Tell {
            trigger,
            cycle,
            stops,
            is_last,
            stage: TellStage::StoreTrigger,
        }
    }

    /// Its next step stores the phase word.
    pub fn stores_phase(&self) -> bool
        ensures { result ≡ stores_phase self.now.stage }
    {
        matches!(self.stage, TellStage::StorePhase)
    }

    /// Its next step tells that the cycle is swept.
    pub fn stores_swept(&self) -> bool
        ensures { result ≡ stores_swept self.now.stage }
    {
        matches!(self.stage, TellStage::StoreSwept)
    }

    /// The phase word that it stores.
    fn phase_word(&self) -> u64
        requires { self.now.stops < 2 ^ 62 }
        ensures { result ≡ phase_word (phase_at self.now) }
    {
        PhaseWord {
            stops: self.stops,
            phase: Phase::Finished,
        }
        .pack()
    }

    /// The step that it asks for.
    fn ask(&self) -> Ask
        requires { self.now.stops < 2 ^ 62 }
        ensures { result ≡ asks self.now }
    {
        match self.stage {
            TellStage::StoreTrigger => Ask::Store(Cell::Trigger, self.trigger),
            TellStage::StoreSwept => Ask::Store(Cell::Swept, self.cycle),
            TellStage::StorePhase => Ask::Store(Cell::Phase, self.phase_word()),
            TellStage::Ended => Ask::Load(Cell::Touch),
        }
    }

    /// What it has given.
    fn given(&self) -> Option<()>
        ensures { result ≡ given self.now }
    {
        match self.stage {
            TellStage::Ended => Some(()),
            _ => None,
        }
    }
}

impl Routine for Tell {
    ghost use Rattle.gh_coord.specs.Telling.{listing};

    type Out = ();

    ghost listing = { listing };

    fn next(&self, layout: &Layout) -> Req {
        layout.request(self.ask())
    }

    fn take(&mut self, _layout: &Layout, _found: u64) -> Option<()> {
        self.stage = match self.stage {
            TellStage::StoreTrigger => TellStage::StoreSwept,
            TellStage::StoreSwept if self.is_last => TellStage::StorePhase,
            TellStage::StoreSwept | TellStage::StorePhase | TellStage::Ended => TellStage::Ended,
        };
        self.given()
    }
}
