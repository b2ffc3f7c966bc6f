//! The assist as a machine of single atomic steps.

ghost use Rattle.std.specs.Prelude.{◌≡◌, ◌^◌, ◌<◌, ◌≤◌, true};
ghost use Rattle.gh_assist.specs.Listing.{draws_if_owed, given, goes_at, held_at, is_busy, opening, pays, slack_in, with_debt, work_in};
ghost use Rattle.gh_assist.specs.Sound.{FitsSlack, SoundAssisting};
ghost use Rattle.gh_base.specs.declared.layout.Layout.{Layout};
ghost use Rattle.gh_base.specs.Holding.{IsHeld};
ghost use Rattle.gh_base.specs.Machines.{Runs};
ghost use Rattle.gh_credit.specs.Drawing as draws;
ghost use Rattle.gh_scan.specs.Listing as scans;
ghost use Rattle.gh_wbuf.specs.EntryTaking as takes;

use gh_base::{Ask, Cell, Held, Layout, Req, Routine};
use gh_credit::Draw;
use gh_pacer::debt;
use gh_scan::Scan;
use gh_wbuf::TakeEntry;

/// The most bytes of an object that an assist is begun for: 2^31. A slot has fewer.
pub const MOST_ASSIST_BYTES: u64 = 1 << 31;

/// The stages of an assist.
#[derive(Clone, Copy, Debug, PartialEq, Eq)]
pub enum AssistStage {
    /// It loads the words that the cycle has to scan.
    LoadWork,
    /// It loads the bytes that may be allocated in the cycle; the words are these.
    LoadSlack(u64),
    /// It draws on the bank.
    Drawing(Draw),
    /// It takes a grey object.
    Taking(TakeEntry),
    /// It scans that object.
    Scanning(Scan),
    /// It has ended.
    Ended,
}

/// Assists with marking, behind the making of an object of so many bytes (Go's `gcAssistAlloc`, mgcmark.go).
///
/// It loads the cycle's work and slack, and what is owed grows by the debt of the object's bytes. It draws on the bank, once.
/// While something is owed it takes a grey object and scans it, which pays the words of the object's slot. It ends where
/// nothing is owed, or no buffer has a grey object.
#[derive(Clone, Copy, Debug, PartialEq, Eq)]
pub struct Assist {
    /// Its seat.
    pub seat: u32,
    /// The buffer that is held between its routines, if any.
    pub held: Option<Held>,
    /// The bytes of the object.
    pub bytes: u64,
    /// The words that are still owed: modulo 2^64, as all sums of found words.
    pub owed: u64,
    /// The words that were ever drawn by its seat. The number stands at `u64::MAX`, which no run reaches.
    pub spent: u64,
    /// Its stage.
    pub stage: AssistStage,
}

/// A found word as the words that a cycle has to scan: modulo 2^31.
fn work_in(found: u64) -> u64
    ensures is { result ≡ work_in found }
    ensures below { result < 2 ^ 31 }
{
    found % MOST_ASSIST_BYTES
}

/// A found word as the bytes that may be allocated in a cycle: modulo 2^31, and 1 at the least, by which a debt can be divided.
fn slack_in(found: u64) -> u64
    ensures is { result ≡ slack_in found }
    ensures fits { FitsSlack result }
{
    (found % MOST_ASSIST_BYTES).max(1)
}

impl Assist {
    /// Behind the making of an object of so many bytes, with this buffer held, if any. So many words are owed from before,
    /// and so many were drawn by this seat.
    pub fn new(seat: u32, held: Option<Held>, bytes: u64, owed: u64, spent: u64) -> Assist
        ensures opening { result ≡ opening seat held bytes owed spent }
        ensures begun { is_busy result.stage ≡ true }
    {
        Assist {
            seat,
            held,
            bytes,
            owed,
            spent,
            stage: AssistStage::LoadWork,
        }
    }

    /// The buffer that is held now, if any.
    pub fn held(&self) -> Option<Held>
        ensures is { result ≡ held_at self.now.held self.now.stage }
        ensures fits { (l : Layout) → SoundAssisting l self.now → IsHeld l result }
    {
        match &self.stage {
            AssistStage::Taking(take) => take.held(),
            AssistStage::Scanning(scan) => scan.held(),
            _ => self.held,
        }
    }

    /// Goes on where the debt is known: where something is owed it draws on the bank.
    fn owes(&mut self)
        ensures { self.new ≡ draws_if_owed self.old }
    {
        self.stage = if self.owed == 0 {
            AssistStage::Ended
        } else {
            AssistStage::Drawing(Draw::new(self.owed))
        };
    }

    /// Goes on behind a payment: while something is owed it takes a grey object.
    fn pays(&mut self)
        ensures { self.new ≡ pays self.old }
    {
        self.stage = if self.owed == 0 {
            AssistStage::Ended
        } else {
            AssistStage::Taking(TakeEntry::new(self.seat, self.held))
        };
    }

    /// Goes on by the slack, where the work is this: what is owed grows by the debt.
    fn add_debt(&mut self, work: u64, found: u64)
        requires work { work < 2 ^ 31 }
        requires bytes { self.old.bytes ≤ MOST_ASSIST_BYTES }
        ensures { self.new ≡ with_debt self.old work found }
    {
        self.owed = self
            .owed
            .wrapping_add(debt(self.bytes, work, slack_in(found)));
        self.owes();
    }

    /// Takes a step of this draw.
    fn draw(&mut self, layout: &Layout, draw: &Draw, found: u64)
        requires sound { SoundAssisting layout.now self.old }
        requires runs { Runs (draws.listing layout.now) draw.now }
        ensures goes { self.new ≡ goes_at layout.now self.old (AssistStage.Drawing draw.now) found }
        ensures sound { SoundAssisting layout.now self.new }
    {
        let mut draw = *draw;
        match draw.take(layout, found) {
            None => self.stage = AssistStage::Drawing(draw),
            Some(drawn) => {
                self.owed = self.owed.saturating_sub(drawn);
                self.spent = self.spent.saturating_add(drawn);
                self.pays();
            }
        }
    }

    /// Takes a step of the taking of an object.
    fn take_entry(&mut self, layout: &Layout, take: &TakeEntry, found: u64)
        requires sound { SoundAssisting layout.now self.old }
        requires runs { Runs (takes.listing layout.now) take.now }
        ensures goes { self.new ≡ goes_at layout.now self.old (AssistStage.Taking take.now) found }
        ensures sound { SoundAssisting layout.now self.new }
    {
        let mut take = *take;
        match take.take(layout, found) {
            None => self.stage = AssistStage::Taking(take),
            Some(None) => {
                self.held = take.held();
                self.stage = AssistStage::Ended;
            }
            Some(Some(reference)) => {
                self.held = take.held();
                let scan = Scan::new(self.seat, reference, self.held);
                self.stage = AssistStage::Scanning(scan);
            }
        }
    }

    /// Takes a step of the scan of an object.
    fn scan(&mut self, layout: &Layout, scan: &Scan, found: u64)
        requires sound { SoundAssisting layout.now self.old }
        requires runs { Runs (scans.listing layout.now) scan.now }
        ensures goes { self.new ≡ goes_at layout.now self.old (AssistStage.Scanning scan.now) found }
        ensures sound { SoundAssisting layout.now self.new }
    {
        let mut scan = *scan;
        match scan.take(layout, found) {
            None => self.stage = AssistStage::Scanning(scan),
            Some(words) => {
                self.held = scan.held();
                self.owed = self.owed.saturating_sub(u64::from(words));
                self.pays();
            }
        }
    }

    /// What it has given: it has ended, or not.
    fn given(&self) -> Option<()>
        ensures { result ≡ given self.now }
    {
        match self.stage {
            AssistStage::Ended => Some(()),
            _ => None,
        }
    }
}

impl Routine for Assist {
    ghost use Rattle.gh_assist.specs.Listing.{listing};

    type Out = ();

    ghost listing = { listing };

    fn next(&self, layout: &Layout) -> Req {
        match &self.stage {
            AssistStage::LoadWork => layout.request(Ask::Load(Cell::Work)),
            AssistStage::LoadSlack(_) => layout.request(Ask::Load(Cell::Slack)),
            AssistStage::Drawing(draw) => draw.next(layout),
            AssistStage::Taking(take) => take.next(layout),
            AssistStage::Scanning(scan) => scan.next(layout),
            AssistStage::Ended => layout.request(Ask::Load(Cell::Touch)),
        }
    }

    fn take(&mut self, layout: &Layout, found: u64) -> Option<()> {
        match &self.stage {
            AssistStage::LoadWork => self.stage = AssistStage::LoadSlack(work_in(found)),
            AssistStage::LoadSlack(work) => {
                let work = *work;
                self.add_debt(work, found);
            }
            AssistStage::Drawing(draw) => {
                let draw = *draw;
                self.draw(layout, &draw, found);
            }
            AssistStage::Taking(take) => {
                let take = *take;
                self.take_entry(layout, &take, found);
            }
            AssistStage::Scanning(scan) => {
                let scan = *scan;
                self.scan(layout, &scan, found);
            }
            AssistStage::Ended => {}
        }
        self.given()
    }
}
