//! The routine by which a processor leaves.

ghost use Rattle.std.specs.Prelude.{◌≡◌, ◌+◌, ◌^◌, ◌<◌, true};
ghost use Rattle.gh_base.specs.Holding.{IsHeld};
ghost use Rattle.gh_base.specs.Machines.{Runs};
ghost use Rattle.gh_poll.specs.Give as gives;
ghost use Rattle.gh_poll.specs.GiveSound.{FitsCache, SoundGiving};
ghost use Rattle.gh_poll.specs.Leave.{given, goes_at, is_busy, opening, says_gone, stage_of};
ghost use Rattle.gh_poll.specs.LeaveSound.{SoundLeaving, SoundStage};

use crate::give::{Cache, Give};
use gh_base::{Ask, Cell, GONE, Held, Layout, Req, Routine};

/// The stages of leaving.
#[derive(Clone, Copy)]
pub enum LeaveStage {
    /// It gives back what it holds.
    Giving(Give),
    /// It says that it is gone.
    Leave,
    /// It has left.
    Left,
}

/// Leaves, once each goroutine of the processor has ended (Go's `procresize` retires a processor so, with
/// `pp.destroy`, proc.go).
///
/// It gives the cached spans and the buffer back, and then acknowledges every stop to come: whoever waits
/// for acknowledgements waits for it no more.
#[derive(Clone, Copy)]
pub struct Leave {
    /// The processor's seat.
    pub seat: u32,
    /// Its stage.
    pub stage: LeaveStage,
}

/// It goes on giving back, or says that it is gone where nothing is left.
fn stage_of(layout: &Layout, give: &Give) -> LeaveStage
    requires { SoundGiving layout.now give.now }
    ensures is { result ≡ stage_of give.now }
    ensures fits { SoundStage layout.now result }
{
    let _ = layout;
    if give.is_busy() {
        LeaveStage::Giving(*give)
    } else {
        LeaveStage::Leave
    }
}

impl Leave {
    /// The processor at this seat leaves, with these spans cached and this buffer held; the head words that
    /// it writes say that the spans are swept in this sweep generation.
    pub fn new(
        layout: &Layout,
        seat: u32,
        generation: u64,
        cache: Cache,
        held: Option<Held>,
    ) -> Leave
        requires seat { seat < layout.now.procs }
        requires generation { generation < 2 ^ 34 }
        requires cache { FitsCache layout.now cache }
        requires held { IsHeld layout.now held }
        ensures opening { result ≡ opening seat generation cache held }
        ensures sound { SoundLeaving layout.now result }
        ensures begun { is_busy result.stage ≡ true }
    {
        let give = Give::new(layout, seat, generation, cache, held);
        Leave {
            seat,
            stage: stage_of(layout, &give),
        }
    }

    /// Behind its next step it has left: nothing is left to be given back.
    #[inline(always)]
    pub fn is_last(&self) -> bool
        ensures { result ≡ says_gone self.now.stage }
    {
        !matches!(self.stage, LeaveStage::Giving(_))
    }

    /// Takes a step of the giving back.
    fn give(&mut self, layout: &Layout, give: &Give, found: u64)
        requires sound { SoundLeaving layout.now self.old }
        requires runs { Runs (gives.listing layout.now) give.now }
        ensures goes { self.new ≡ goes_at self.old (LeaveStage.Giving give.now) found }
        ensures sound { SoundLeaving layout.now self.new }
    {
        let mut give = *give;
        give.take(layout, found);
        self.stage = stage_of(layout, &give);
    }

    /// What it has given: it has left, or not.
    fn given(&self) -> Option<()>
        ensures { result ≡ given self.now.stage }
    {
        match self.stage {
            LeaveStage::Left => Some(()),
            _ => None,
        }
    }
}

impl Routine for Leave {
    ghost use Rattle.gh_poll.specs.Leave.{listing};

    type Out = ();

    ghost listing = { listing };

    fn next(&self, layout: &Layout) -> Req {
        let ask = match &self.stage {
            LeaveStage::Giving(give) => return give.next(layout),
            LeaveStage::Leave => Ask::Store(Cell::Ack(self.seat), GONE),
            LeaveStage::Left => Ask::Load(Cell::Touch),
        };
        layout.request(ask)
    }

    fn take(&mut self, layout: &Layout, found: u64) -> Option<()> {
        match &self.stage {
            LeaveStage::Giving(give) => {
                let give = *give;
                self.give(layout, &give, found);
            }
            LeaveStage::Leave => self.stage = LeaveStage::Left,
            LeaveStage::Left => {}
        }
        self.given()
    }
}
