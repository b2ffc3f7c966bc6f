//! The routine that looks for a buffer with room.

ghost use Rattle.std.specs.Prelude.{◌≡◌, ◌<◌, Option, true};
ghost use Rattle.gh_base.specs.declared.layout.Layout.{Layout};
ghost use Rattle.gh_base.specs.Cells.{buffers_of};
ghost use Rattle.gh_base.specs.Holding.{IsHeld};
ghost use Rattle.gh_wbuf.specs.RoomFinding.{given, goes, held_at, is_busy, next_index, opening, try_at};
ghost use Rattle.gh_wbuf.specs.Sound.{SoundRoomFinding};
ghost use Rattle.gh_wbuf.specs.Trying.{GivesServing};

use crate::try_buffer::{TryBuffer, Wish, give_back};
use gh_base::{Ask, Cell, Held, Layout, Req, Routine};

/// The stages of the routine that looks for room.
#[derive(Clone, Copy, Debug, PartialEq, Eq)]
pub enum RoomStage {
    /// It gives this buffer back.
    GiveBack(Held),
    /// It tries a buffer.
    Try(TryBuffer),
    /// It has ended, and holds this buffer.
    Ended(Held),
}

/// Takes a buffer with room for two entries (Go's `getempty`, mgcwork.go).
///
/// A buffer that is held is given back first. Then the buffers are tried from the first on, and behind
/// the last one again from the first, until a try has taken one: at each moment there is a buffer with
/// room that nobody holds.
#[derive(Clone, Copy, Debug, PartialEq, Eq)]
pub struct FindRoom {
    /// Whose search it is.
    pub seat: u32,
    /// Its stage.
    pub stage: RoomStage,
}

impl FindRoom {
    /// The seat takes a buffer with room, and holds this one before, if any.
    pub fn new(seat: u32, held: Option<Held>) -> FindRoom
        ensures opening { result ≡ opening seat held }
        ensures begun { is_busy result.stage ≡ true }
    {
        FindRoom {
            seat,
            stage: match held {
                Some(held) => RoomStage::GiveBack(held),
                None => try_at(seat, 0),
            },
        }
    }

    /// The buffer that is held now, if any.
    pub fn held(&self) -> Option<Held>
        ensures is { result ≡ held_at self.now.stage }
        ensures fits { (l : Layout) → SoundRoomFinding l self.now → IsHeld l result }
    {
        match &self.stage {
            RoomStage::GiveBack(held) | RoomStage::Ended(held) => Some(*held),
            RoomStage::Try(tried) => tried.held,
        }
    }

    /// What it has given.
    fn given(&self) -> Option<Held>
        ensures { result ≡ given self.now }
    {
        match self.stage {
            RoomStage::Ended(held) => Some(held),
            _ => None,
        }
    }
}

/// It tries this buffer next.
fn try_at(seat: u32, index: u32) -> RoomStage
    ensures { result ≡ try_at seat index }
{
    RoomStage::Try(TryBuffer::new(seat, Wish::Room, index, None))
}

/// The buffer behind this one, and behind the last the first.
fn next_index(layout: &Layout, index: u32) -> u32
    requires { index < buffers_of layout.now }
    ensures is { result ≡ next_index layout.now index }
    ensures there { result < buffers_of layout.now }
{
    if index + 1 < layout.buffers() {
        index + 1
    } else {
        0
    }
}

impl Routine for FindRoom {
    ghost use Rattle.gh_wbuf.specs.declared.try_buffer.Wish.TheVariants.{Room};
    ghost use Rattle.gh_wbuf.specs.RoomFinding.{listing};

    type Out = Held;

    ghost listing = { listing };

    fn next(&self, layout: &Layout) -> Req {
        match &self.stage {
            RoomStage::GiveBack(held) => layout.request(give_back(*held)),
            RoomStage::Try(tried) => tried.next(layout),
            RoomStage::Ended(_) => layout.request(Ask::Load(Cell::Touch)),
        }
    }

    fn take(&mut self, layout: &Layout, found: u64) -> Option<Held>
        requires sound { SoundRoomFinding layout.now self.old }
        requires busy { is_busy self.old.stage ≡ true }
        ensures state { self.new ≡ goes layout.now self.old found }
        ensures out { result ≡ given self.new }
        ensures sound { SoundRoomFinding layout.now self.new }
        ensures serves { GivesServing layout.now Room (Option.Some result) }
    {
        match &mut self.stage {
            RoomStage::GiveBack(_) => self.stage = try_at(self.seat, 0),
            RoomStage::Try(tried) => {
                let out = tried.take(layout, found)?;
                self.stage = match out {
                    None => try_at(self.seat, next_index(layout, tried.index)),
                    Some(held) => RoomStage::Ended(held),
                };
            }
            RoomStage::Ended(_) => {}
        }
        self.given()
    }
}
