//! The routine by which an actor acknowledges a stop and goes on.

ghost use Rattle.std.specs.Prelude.{◌≡◌, IfSome, IsTrue, Option, true};
ghost use Rattle.gh_base.specs.declared.layout.Layout.{Layout};
ghost use Rattle.gh_base.specs.Cells.{InRange};
ghost use Rattle.gh_phase.specs.Listing.{asks, given, goes, goes_at, is_busy, opening};
ghost use Rattle.gh_phase.specs.Sound.{SoundResuming};
ghost use Rattle.gh_phase.specs.Views.{FitsView};

use crate::view::{RunPhase, View, generation};
use gh_base::{Ask, Cell, Layout, PhaseWord, Req, Routine};

/// The stages of going on after a stop.
#[derive(Clone, Copy, Debug, PartialEq, Eq)]
pub enum ResumeStage {
    /// It acknowledges the stop.
    Acknowledge,
    /// It loads the phase, until the world runs again.
    LoadPhase,
    /// It loads the sweep generation.
    LoadGeneration,
    /// It loads how many cycles have begun.
    LoadBegun,
    /// It has ended, and knows whether another number of cycles has begun than before.
    Ended(bool),
}

/// What it ends with.
#[derive(Clone, Copy, Debug, PartialEq, Eq)]
pub struct Resumed {
    /// What the actor knows of the phase now.
    pub view: View,
    /// Another number of cycles has begun than the actor knew of before.
    pub another_cycle: bool,
}

/// Acknowledges a stop, and goes on once the world runs again (Go's `gcstopm`, proc.go).
///
/// It stores the number of the stop as what its seat acknowledges. Then it loads the phase again and again.
/// While that is the same stop it waits; where it is a stop of another number it acknowledges that one in
/// the same way. Once the phase is no stop it loads the sweep generation and the number of cycles begun, and
/// ends with what it knows then.
#[derive(Clone, Copy, Debug, PartialEq, Eq)]
pub struct Resume {
    /// Its seat.
    pub seat: u32,
    /// The number of the stop.
    pub stops: u64,
    /// What it knows of the phase so far.
    pub view: View,
    /// Its stage.
    pub stage: ResumeStage,
}

impl Resume {
    /// The seat, of a processor or a worker, acknowledges the stop of this number and goes on; before, it
    /// knew this of the phase.
    pub fn new(seat: u32, stops: u64, view: View) -> Resume
        ensures opening { result ≡ opening seat stops view }
        ensures begun { is_busy result ≡ true }
    {
        Resume {
            seat,
            stops,
            view,
            stage: ResumeStage::Acknowledge,
        }
    }

    /// Goes on by the phase word.
    fn after_phase(&mut self, found: u64)
        ensures { self.new ≡ goes_at self.old ResumeStage.LoadPhase found }
    {
        let word = PhaseWord::unpack(found);
        match RunPhase::of(word.phase) {
            Some(phase) => {
                self.view.phase = phase;
                self.stage = ResumeStage::LoadGeneration;
            }
            None if word.stops == self.stops => self.stage = ResumeStage::LoadPhase,
            None => {
                self.stops = word.stops;
                self.stage = ResumeStage::Acknowledge;
            }
        }
    }

    /// The cell that its next step loads, where it waits for the world to run again.
    #[inline(always)]
    pub fn looks(&self) -> Option<Cell>
        ensures asks { IfSome result (λ c. asks self.now ≡ Ask.Load c) }
        ensures busy { IfSome result (λ c. given self.now ≡ Option.None) }
        ensures within { (l : Layout) → IfSome result (λ c. InRange l c) }
    {
        match self.stage {
            ResumeStage::LoadPhase => Some(Cell::Phase),
            _ => None,
        }
    }

    /// It waits on where its step found this: the phase word still tells of the stop that it has acknowledged. The step changes
    /// nothing then. While a stop lasts each step of an actor that waits for its end is such.
    #[inline(always)]
    pub fn stands(&self, found: u64) -> bool
        ensures goes { IsTrue result → goes self.now found ≡ self.now }
        ensures busy { IsTrue result → given self.now ≡ Option.None }
    {
        match self.stage {
            ResumeStage::LoadPhase => {
                let word = PhaseWord::unpack(found);
                RunPhase::of(word.phase).is_none() && word.stops == self.stops
            }
            _ => false,
        }
    }

    /// Ends by the number of cycles begun.
    fn end(&mut self, found: u64)
        ensures { self.new ≡ goes_at self.old ResumeStage.LoadBegun found }
    {
        let another_cycle = found != self.view.begun;
        self.view.begun = found;
        self.stage = ResumeStage::Ended(another_cycle);
    }

    /// What it has given.
    fn given(&self) -> Option<Resumed>
        requires { FitsView self.now.view }
        ensures is { result ≡ given self.now }
        ensures fits { IfSome result (λ r. FitsView r.view) }
    {
        match self.stage {
            ResumeStage::Ended(another_cycle) => Some(Resumed {
                view: self.view,
                another_cycle,
            }),
            _ => None,
        }
    }
}

impl Routine for Resume {
    ghost use Rattle.gh_phase.specs.Listing.{listing};

    type Out = Resumed;

    ghost listing = { listing };

    fn next(&self, layout: &Layout) -> Req {
        match self.stage {
            ResumeStage::Acknowledge => {
                layout.request(Ask::Store(Cell::Ack(self.seat), self.stops))
            }
            ResumeStage::LoadPhase => layout.request(Ask::Load(Cell::Phase)),
            ResumeStage::LoadGeneration => layout.request(Ask::Load(Cell::Gen)),
            ResumeStage::LoadBegun => layout.request(Ask::Load(Cell::Begun)),
            ResumeStage::Ended(_) => layout.request(Ask::Load(Cell::Touch)),
        }
    }

    fn take(&mut self, layout: &Layout, found: u64) -> Option<Resumed>
        requires sound { SoundResuming layout.now self.old }
        requires busy { is_busy self.old ≡ true }
        ensures state { self.new ≡ goes self.old found }
        ensures out { result ≡ given self.new }
        ensures sound { SoundResuming layout.now self.new }
        ensures fits { IfSome result (λ r. FitsView r.view) }
    {
        match self.stage {
            ResumeStage::Acknowledge => self.stage = ResumeStage::LoadPhase,
            ResumeStage::LoadPhase => self.after_phase(found),
            ResumeStage::LoadGeneration => {
                self.view.generation = generation(found);
                self.stage = ResumeStage::LoadBegun;
            }
            ResumeStage::LoadBegun => self.end(found),
            ResumeStage::Ended(_) => {}
        }
        self.given()
    }
}
