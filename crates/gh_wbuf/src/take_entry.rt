//! The routine that takes an entry.

ghost use Rattle.std.specs.Prelude.{◌≡◌, ◌*◌, ◌<◌, ◌≤◌, IfSome, IsTrue, Option, false, true};
ghost use Rattle.gh_base.specs.declared.layout.Layout.{Layout};
ghost use Rattle.gh_base.specs.Cells.{InRange, buffers_of};
ghost use Rattle.gh_base.specs.Holding.{IsHeld};
ghost use Rattle.gh_wbuf.specs.EntryTaking.{asks, begin, behind, entry_of, given, goes, held_at, is_busy, less, opening, try_at};
ghost use Rattle.gh_wbuf.specs.Sound.{SoundEntryTaking};

use crate::try_buffer::{TryBuffer, TryStage, Wish};
use gh_base::{Ask, Cell, Held, Layout, Req, Routine};

/// The stages of the routine that takes an entry.
#[derive(Clone, Copy, Debug, PartialEq, Eq)]
pub enum TakeStage {
    /// It tries a buffer.
    Try(TryBuffer),
    /// It takes the last entry of this buffer, which it holds.
    Take(Held),
    /// It has ended.
    Ended {
        /// The buffer that it holds, if any.
        held: Option<Held>,
        /// The reference that it has taken, and `None` where each try gave none.
        entry: Option<u64>,
    },
}

/// Takes an entry, a grey object that is to be scanned (Go's `gcWork.tryGet` and `trygetfull`,
/// mgcwork.go).
///
/// From a held buffer with an entry it takes the last one. Else it tries each buffer once, from the
/// first on, until a try has taken one that has an entry; a held buffer, which is empty, is given back
/// before that. It ends with the entry, or with `None` where each try gave none.
///
/// An entry is a reference, the index of the object's first heap word plus 1. The word that is found is
/// taken modulo the heap's words; nil, which may not stand in an entry, is read as a reference to the
/// first heap word.
#[derive(Clone, Copy, Debug, PartialEq, Eq)]
pub struct TakeEntry {
    /// Whose taking it is.
    pub seat: u32,
    /// Its stage.
    pub stage: TakeStage,
}

/// It tries this buffer next, and holds this one, if any.
fn try_at(seat: u32, index: u32, held: Option<Held>) -> TakeStage
    ensures { result ≡ try_at seat index held }
{
    TakeStage::Try(TryBuffer::new(seat, Wish::Entry, index, held))
}

/// Where it begins: with the entry of a held buffer that has one, or with the first try.
fn begin(seat: u32, held: Option<Held>) -> TakeStage
    ensures { result ≡ begin seat held }
{
    match held {
        Some(own) => {
            if 0 < own.count {
                TakeStage::Take(own)
            } else {
                try_at(seat, 0, Some(own))
            }
        }
        None => try_at(seat, 0, None),
    }
}

impl TakeEntry {
    /// The seat takes an entry, and holds this buffer before, if any.
    pub fn new(seat: u32, held: Option<Held>) -> TakeEntry
        ensures opening { result ≡ opening seat held }
        ensures begun { is_busy result.stage ≡ true }
    {
        TakeEntry {
            seat,
            stage: begin(seat, held),
        }
    }

    /// The buffer that is held now, if any.
    pub fn held(&self) -> Option<Held>
        ensures is { result ≡ held_at self.now.stage }
        ensures fits { (l : Layout) → SoundEntryTaking l self.now → IsHeld l result }
    {
        match &self.stage {
            TakeStage::Try(tried) => tried.held,
            TakeStage::Take(held) => Some(*held),
            TakeStage::Ended { held, .. } => *held,
        }
    }

    /// The cell that its next step loads, where it looks at a buffer.
    #[inline(always)]
    pub fn looks(&self) -> Option<Cell>
        ensures asks { IfSome result (λ c. asks self.now ≡ Ask.Load c) }
        ensures busy { IfSome result (λ c. given self.now ≡ Option.None) }
        ensures within { (l : Layout) → SoundEntryTaking l self.now → IfSome result (λ c. InRange l c) }
    {
        match &self.stage {
            TakeStage::Try(tried) => match tried.stage {
                TryStage::Look => Some(Cell::Buffer(tried.index)),
                _ => None,
            },
            _ => None,
        }
    }

    /// Goes on to the next buffer, where by the word found this one does not serve, and answers whether it did. A worker that
    /// finds no entry looks at each buffer so, and such a step changes one number; where it did not, nothing has changed, and
    /// [`take`](Routine::take) makes the step.
    #[inline(always)]
    pub fn goes_on(&mut self, layout: &Layout, found: u64) -> bool
        requires sound { SoundEntryTaking layout.now self.old }
        ensures goes { IsTrue result → self.new ≡ goes layout.now self.old found }
        ensures busy { IsTrue result → given self.new ≡ Option.None }
        ensures sound { SoundEntryTaking layout.now self.new }
        ensures stays { result ≡ false → self.new ≡ self.old }
    {
        match &mut self.stage {
            TakeStage::Try(tried) => match tried.stage {
                TryStage::Look => {
                    if tried.index + 1 >= layout.buffers() || Wish::Entry.is_met_by(found) {
                        return false;
                    }
                    tried.index += 1;
                    true
                }
                _ => false,
            },
            _ => false,
        }
    }

    /// What it has given.
    fn given(&self) -> Option<Option<u64>>
        ensures { result ≡ given self.now }
    {
        match self.stage {
            TakeStage::Ended { entry, .. } => Some(entry),
            _ => None,
        }
    }
}

/// What follows behind this buffer, with this one held, if any.
fn behind(layout: &Layout, seat: u32, index: u32, held: Option<Held>) -> TakeStage
    requires { index < buffers_of layout.now }
    ensures { result ≡ behind layout.now seat index held }
{
    if index + 1 < layout.buffers() {
        try_at(seat, index + 1, held)
    } else {
        TakeStage::Ended { held, entry: None }
    }
}

/// The reference in an entry.
fn entry_of(layout: &Layout, found: u64) -> u64
    ensures is { result ≡ entry_of layout.now found }
    ensures some { 1 ≤ result }
    ensures within { result ≤ 1024 * layout.now.pages }
{
    (found.max(1) - 1) % (1024 * u64::from(layout.pages)) + 1
}

/// The entry of the held buffer is taken, which has one less then.
fn take_from(layout: &Layout, held: Held, found: u64) -> TakeStage
    requires { 0 < held.count }
    ensures { result ≡ TakeStage.Ended (Option.Some (less held)) (Option.Some (entry_of layout.now found)) }
{
    let left = Held {
        index: held.index,
        count: held.count - 1,
    };
    TakeStage::Ended {
        held: Some(left),
        entry: Some(entry_of(layout, found)),
    }
}

impl Routine for TakeEntry {
    ghost use Rattle.gh_wbuf.specs.EntryTaking.{listing};

    type Out = Option<u64>;

    ghost listing = { listing };

    fn next(&self, layout: &Layout) -> Req {
        match &self.stage {
            TakeStage::Try(tried) => tried.next(layout),
            TakeStage::Take(held) => {
                let last = Cell::Entry(held.index, held.count - 1);
                layout.request(Ask::Load(last))
            }
            TakeStage::Ended { .. } => layout.request(Ask::Load(Cell::Touch)),
        }
    }

    fn take(&mut self, layout: &Layout, found: u64) -> Option<Option<u64>> {
        match &mut self.stage {
            TakeStage::Try(tried) => {
                let out = tried.take(layout, found)?;
                self.stage = match out {
                    None => behind(layout, self.seat, tried.index, tried.held),
                    Some(taken) => TakeStage::Take(taken),
                };
            }
            TakeStage::Take(held) => self.stage = take_from(layout, *held, found),
            TakeStage::Ended { .. } => {}
        }
        self.given()
    }
}
