//! The worker as a routine of single atomic steps.

ghost use Rattle.std.specs.Prelude.{◌≡◌, ◌^◌, ◌<◌, IfSome, IsTrue, ◌↔◌, Option, false, true};
ghost use Rattle.gh_base.specs.declared.layout.Layout.{Layout};
ghost use Rattle.gh_base.specs.Cells.{InRange};
ghost use Rattle.gh_base.specs.Holding.{IsHeld};
ghost use Rattle.gh_base.specs.Packing.{page_of};
ghost use Rattle.gh_worker.specs.Handshake.{IsMarking};
ghost use Rattle.gh_worker.specs.Listing.{after_global, after_page, asks, done_with, given, gives_back, goes, goes_at, handed_over, held_at, is_busy, loads_phase_or_page, opening, page_done, page_past, resuming, stops_at, with_work};
ghost use Rattle.gh_worker.specs.Sound.{IsWorkersSeat, SoundStage, SoundWorking};

use crate::laws::workers_are_routines;
use gh_base::{Ask, Cell, GONE, Held, Layout, PageWord, Phase, PhaseWord, Req, Routine};
use gh_credit::{CREDIT_SLACK, Earn};
use gh_phase::{Resume, Resumed, View};
use gh_scan::Scan;
use gh_shade::{Shade, Shaded};
use gh_sweep::Sweep;
use gh_wbuf::{FindRoom, GiveBuffer, TakeEntry};
use std::marker::Model;

/// The stages of a worker.
#[derive(Clone, Copy, Debug, PartialEq, Eq)]
pub enum WorkerStage {
    /// It loads the phase.
    LoadPhase,
    /// It looks at the page at its cursor.
    LoadPage,
    /// It sweeps the span whose head it met there.
    Sweeping(Sweep),
    /// It hands over the words that it has scanned, at the stop of this number.
    EarningAtStop(Earn, u64),
    /// It gives its buffer back, at that stop.
    GiveBack(GiveBuffer, u64),
    /// It acknowledges a stop and goes on.
    Resuming(Resume),
    /// It takes a grey object.
    Taking(TakeEntry),
    /// It scans that object.
    Scanning(Scan),
    /// It hands over the words that it has scanned.
    Earning(Earn),
    /// It loads the number of the next global.
    LoadCursor,
    /// It claims the next global.
    Claim,
    /// It loads the global that it has claimed.
    LoadGlobal(u32),
    /// It shades what that refers to.
    Shading(Shade),
    /// It looks for a buffer with room, which that shading waits for.
    FindRoom(Shade, FindRoom),
    /// It says that it is gone.
    Leave,
    /// It is done.
    Done,
}

/// Marks in the background (Go's `gcBgMarkWorker`, mgc.go, and `gcDrain`, mgcmark.go).
///
/// Again and again it loads the phase. While marking is on it takes a grey object and scans it; where no
/// buffer has one it claims the next global, if one is left, and shades what that refers to. What it has scanned
/// it hands over to the bank of credit, [`CREDIT_SLACK`] words or more at a time. At a stop it hands over the
/// rest, gives its buffer back, acknowledges, and goes on once the world runs again. With marking off it looks at
/// the next page of the arena, and sweeps the span there if it is unswept (Go's `bgsweep`, mgcsweep.go). Where
/// the last cycle is swept it says that it is gone, and is done.
#[derive(Clone, Copy, Debug)]
pub struct Worker {
    seat: u32,
    held: Option<Held>,
    view: View,
    // The words that it has scanned.
    marks: u64,
    // Those of them that it has not handed over yet (Go's `gcw.heapScanWork`, mgcwork.go), and those that it has.
    scan_work: u64,
    earned: u64,
    // The page that it looks at next with marking off.
    page: u32,
    // It looks at that page next. Then `stage` is `LoadPhase`, so that an idle step writes this alone and no stage, which has room for
    // the largest.
    at_page: bool,
    stage: WorkerStage,
}

impl Model for Worker {
    ghost use Rattle.gh_worker.specs.Listing.{Working};
    ghost use Rattle.gh_worker.specs.Sound.{is_at_page, LooksSo, rest_of, stage_kept};

    ghost Value = { Working };

    ghost view = { λ w. record { seat = w.seat; held = w.held; view = w.view; marks = w.marks; scan_work = w.scan_work; earned = w.earned; page = w.page; stage = stage_kept w.at_page w.stage } };

    ghost invariant = { λ w. LooksSo w.at_page w.stage };

    ghost inverse = { λ w. record { seat = w.seat; held = w.held; view = w.view; marks = w.marks; scan_work = w.scan_work; earned = w.earned; page = w.page; at_page = is_at_page w.stage; stage = rest_of w.stage } };
}

impl Worker {
    /// A worker at this seat, before its first step: it holds no buffer.
    pub fn new(seat: u32) -> Worker
        ensures opening { result ≡ opening seat }
        ensures begun { is_busy result.stage ≡ true }
        ensures sound { (l : Layout) → IsWorkersSeat l seat → SoundWorking l result }
    {
        Worker {
            seat,
            held: None,
            view: View::first(),
            marks: 0,
            scan_work: 0,
            earned: 0,
            page: 0,
            at_page: false,
            stage: WorkerStage::LoadPhase,
        }
    }

    /// It is done: it asks for no further step.
    pub fn is_done(&self) -> bool
        ensures { IsTrue result ↔ (is_busy self.now.stage ≡ false) }
    {
        matches!(self.stage, WorkerStage::Done)
    }

    /// It loads the phase, or the word of a page: while marking is off, and no span is unswept, each step is one of these in turn.
    pub fn is_idle(&self) -> bool
        ensures { result ≡ loads_phase_or_page self.now.stage }
    {
        matches!(self.stage, WorkerStage::LoadPhase)
    }

    /// The words that it has scanned: those of each object and one for each global, counted when that is
    /// done. The number stands at `u64::MAX`, which no run reaches.
    pub fn marks(&self) -> u64
        ensures { result ≡ self.now.marks }
    {
        self.marks
    }

    /// The words that it has scanned and not handed over to the bank yet.
    pub fn scan_work(&self) -> u64
        ensures { result ≡ self.now.scan_work }
    {
        self.scan_work
    }

    /// The words that it has handed over to the bank. The number stands at `u64::MAX`, which no run reaches.
    pub fn earned(&self) -> u64
        ensures { result ≡ self.now.earned }
    {
        self.earned
    }

    /// The buffer that is held now, if any.
    pub fn held(&self) -> Option<Held>
        ensures is { result ≡ held_at self.now.held self.now.stage }
        ensures fits { (l : Layout) → SoundWorking l self.now → IsHeld l result }
    {
        match &self.stage {
            WorkerStage::GiveBack(give, _) => give.held(),
            WorkerStage::Taking(take) => take.held(),
            WorkerStage::Scanning(scan) => scan.held(),
            WorkerStage::Shading(shade) => shade.held,
            WorkerStage::FindRoom(_, room) => room.held(),
            _ => self.held,
        }
    }

    /// It acknowledges the stop of this number.
    fn resuming(&self, stops: u64) -> WorkerStage
        ensures { result ≡ resuming self.now stops }
    {
        WorkerStage::Resuming(Resume::new(self.seat, stops, self.view))
    }

    /// Acknowledges the stop of this number, and gives the buffer that it holds back first.
    fn gives_back(&self, stops: u64) -> WorkerStage
        ensures { result ≡ gives_back self.now stops self.now.held }
    {
        match self.held {
            None => self.resuming(stops),
            Some(held) => WorkerStage::GiveBack(GiveBuffer::new(held), stops),
        }
    }

    /// Stops, and hands over what it has scanned first.
    fn stop(&mut self, stops: u64)
        ensures goes { self.new ≡ record self.old { stage = stops_at self.old stops self.old.held } }
        ensures goes_on { given self.new ≡ Option.None }
    {
        self.at_page = false;
        self.stage = if self.scan_work == 0 {
            self.gives_back(stops)
        } else {
            WorkerStage::EarningAtStop(Earn::new(self.scan_work), stops)
        };
    }

    /// Goes on by the phase word.
    fn by_phase(&mut self, layout: &Layout, found: u64)
        requires { self.old.stage ≡ WorkerStage.LoadPhase }
        ensures goes { self.new ≡ goes_at layout.now self.old WorkerStage.LoadPhase found }
        ensures goes_on { given self.new ≡ Option.None }
    {
        let word = PhaseWord::unpack(found);
        match word.phase {
            Phase::Off => self.at_page = true,
            Phase::Mark => {
                let take = TakeEntry::new(self.seat, self.held);
                self.at_page = false;
                self.stage = WorkerStage::Taking(take);
            }
            Phase::Stop => self.stop(word.stops),
            Phase::Finished => {
                self.at_page = false;
                self.stage = WorkerStage::Leave;
            }
        }
    }

    /// It is done with the page at its cursor.
    fn page_done(&mut self, layout: &Layout)
        requires { self.old.page < layout.now.pages }
        ensures { self.new ≡ page_done layout.now self.old }
    {
        self.page = page_past(layout, self.page);
        self.at_page = false;
        self.stage = WorkerStage::LoadPhase;
    }

    /// Goes on by the word of the page: where that is the head of an unswept span, it sweeps it.
    fn after_page(&mut self, layout: &Layout, found: u64)
        requires { self.old.page < layout.now.pages }
        ensures { self.new ≡ after_page layout.now self.old (page_of found) }
    {
        match PageWord::unpack(found) {
            PageWord::Head(head) => {
                if head.number + 2 == self.view.generation {
                    let sweep = Sweep::new(self.page, head);
                    self.at_page = false;
                    self.stage = WorkerStage::Sweeping(sweep);
                } else {
                    self.page_done(layout);
                }
            }
            PageWord::Free | PageWord::Body(_) => self.page_done(layout),
        }
    }

    /// Takes the step of such a load.
    #[inline(always)]
    pub fn idle(&mut self, layout: &Layout, found: u64)
        requires sound { SoundWorking layout.now self.old }
        requires idle { loads_phase_or_page self.old.stage ≡ true }
        ensures goes { self.new ≡ goes layout.now self.old found }
        ensures goes_on { given self.new ≡ Option.None }
        ensures sound { SoundWorking layout.now self.new }
    {
        workers_are_routines();
        self.look(layout, found);
    }

    /// Goes on by such a load.
    // Mostly marking is off still, and the page in no unswept span: both are passed here, and all else by a call.
    #[inline(always)]
    fn look(&mut self, layout: &Layout, found: u64)
        requires page { self.old.page < layout.now.pages }
        requires idle { loads_phase_or_page self.old.stage ≡ true }
        ensures goes { self.new ≡ goes layout.now self.old found }
        ensures goes_on { given self.new ≡ Option.None }
    {
        if !self.at_page {
            match PhaseWord::unpack(found).phase {
                Phase::Off => self.at_page = true,
                Phase::Mark | Phase::Stop | Phase::Finished => self.by_phase(layout, found),
            }
            return;
        }
        match PageWord::unpack(found) {
            PageWord::Head(head) if head.number + 2 == self.view.generation => {
                self.after_page(layout, found)
            }
            _ => {
                self.page = page_past(layout, self.page);
                self.at_page = false;
            }
        }
    }

    /// The cell that its next step loads, where it waits for the end of a stop, or looks at a buffer for an entry.
    #[inline(always)]
    pub fn looks(&self) -> Option<Cell>
        ensures asks { (l : Layout) → IfSome result (λ c. asks l self.now ≡ Ask.Load c) }
        ensures busy { IfSome result (λ c. given self.now ≡ Option.None) }
        ensures within { (l : Layout) → SoundWorking l self.now → IfSome result (λ c. InRange l c) }
    {
        match &self.stage {
            WorkerStage::Resuming(resume) => resume.looks(),
            WorkerStage::Taking(take) => take.looks(),
            _ => None,
        }
    }

    /// Goes on by such a load, where the stop still lasts, or where that buffer does not serve and another stands behind it, and
    /// answers whether it did. With many workers most of their steps are such, and each changes a number or nothing; where it did
    /// not, nothing has changed, and [`take`](Routine::take) makes the step.
    #[inline(always)]
    pub fn goes_on(&mut self, layout: &Layout, found: u64) -> bool
        requires sound { SoundWorking layout.now self.old }
        ensures goes { IsTrue result → self.new ≡ goes layout.now self.old found }
        ensures busy { IsTrue result → given self.new ≡ Option.None }
        ensures sound { SoundWorking layout.now self.new }
        ensures stays { result ≡ false → self.new ≡ self.old }
    {
        match &mut self.stage {
            WorkerStage::Resuming(resume) => resume.stands(found),
            WorkerStage::Taking(take) => take.goes_on(layout, found),
            _ => false,
        }
    }

    /// What it has scanned is handed over.
    fn handed_over(&mut self)
        ensures { self.new ≡ handed_over self.old self.old.stage }
    {
        self.earned = self.earned.saturating_add(self.scan_work);
        self.scan_work = 0;
    }

    /// Goes on after its buffer is given back.
    fn given_back(&mut self, stops: u64)
        ensures { self.new ≡ record self.old { held = Option.None; stage = resuming self.old stops } }
    {
        self.held = None;
        self.at_page = false;
        self.stage = self.resuming(stops);
    }

    /// Goes on where so many words are scanned and not handed over: enough of them it hands over.
    fn with_work(&self, scan_work: u64) -> WorkerStage
        ensures { result ≡ with_work scan_work }
    {
        if scan_work < CREDIT_SLACK {
            WorkerStage::LoadPhase
        } else {
            WorkerStage::Earning(Earn::new(scan_work))
        }
    }

    /// So many words are scanned, and this buffer is held, if any.
    fn done_with(&mut self, held: Option<Held>, words: u32)
        ensures { self.new ≡ done_with self.old held words }
    {
        self.held = held;
        self.marks = self.marks.saturating_add(u64::from(words));
        self.scan_work = self.scan_work.saturating_add(u64::from(words));
        self.at_page = false;
        self.stage = self.with_work(self.scan_work);
    }

    /// Goes on by the number of the next global: where there is one, it claims one.
    fn after_cursor(&mut self, layout: &Layout, found: u64)
        ensures { self.new ≡ goes_at layout.now self.old WorkerStage.LoadCursor found }
    {
        self.at_page = false;
        self.stage = if is_global(layout, found) {
            WorkerStage::Claim
        } else {
            WorkerStage::LoadPhase
        };
    }

    /// Goes on by the number that it has claimed.
    fn after_claim(&mut self, layout: &Layout, found: u64)
        ensures { self.new ≡ goes_at layout.now self.old WorkerStage.Claim found }
    {
        self.at_page = false;
        self.stage = if is_global(layout, found) {
            WorkerStage::LoadGlobal(found as u32)
        } else {
            WorkerStage::LoadPhase
        };
    }

    /// Goes on by what the global holds: nil, or a reference.
    fn after_global(&mut self, layout: &Layout, found: u64)
        ensures { self.new ≡ after_global layout.now self.old found }
    {
        if found == 0 {
            self.done_with(self.held, 1);
        } else {
            let words = 1024 * u64::from(layout.pages);
            let reference = (found - 1) % words + 1;
            self.at_page = false;
            self.stage = WorkerStage::Shading(Shade::new(reference, self.held));
        }
    }

    /// Takes a step of marking. Each stage is changed where it stands.
    fn mark(&mut self, layout: &Layout, found: u64)
        requires marks { IsMarking self.old.stage }
        requires sound { SoundStage layout.now self.old.stage }
        ensures { self.new ≡ goes layout.now self.old found }
    {
        match &mut self.stage {
            WorkerStage::Taking(take) => match take.take(layout, found) {
                None => {}
                Some(None) => {
                    self.held = take.held();
                    self.stage = WorkerStage::LoadCursor;
                }
                Some(Some(reference)) => {
                    self.held = take.held();
                    let scan = Scan::new(self.seat, reference, self.held);
                    self.stage = WorkerStage::Scanning(scan);
                }
            },
            WorkerStage::Scanning(scan) => {
                if let Some(words) = scan.take(layout, found) {
                    let held = scan.held();
                    self.stage = WorkerStage::LoadPhase;
                    self.done_with(held, words);
                }
            }
            WorkerStage::Earning(_) => {
                self.handed_over();
                self.stage = WorkerStage::LoadPhase;
            }
            WorkerStage::LoadCursor => self.after_cursor(layout, found),
            WorkerStage::Claim => self.after_claim(layout, found),
            WorkerStage::LoadGlobal(_) => self.after_global(layout, found),
            WorkerStage::Shading(shade) => match shade.take(layout, found) {
                None => {}
                Some(Shaded::Done) => {
                    let held = shade.held;
                    self.stage = WorkerStage::LoadPhase;
                    self.done_with(held, 1);
                }
                Some(Shaded::WantsRoom) => {
                    let shade = *shade;
                    let room = FindRoom::new(self.seat, shade.held);
                    self.stage = WorkerStage::FindRoom(shade, room);
                }
            },
            WorkerStage::FindRoom(shade, room) => {
                if let Some(held) = room.take(layout, found) {
                    // The shading that waits for room has it, and goes on.
                    let mut shade = *shade;
                    shade.told_room(held);
                    self.stage = WorkerStage::Shading(shade);
                }
            }
            _ => {}
        }
    }

    /// Goes on by what its step found.
    fn go(&mut self, layout: &Layout, found: u64)
        requires sound { SoundWorking layout.now self.old }
        ensures { self.new ≡ goes layout.now self.old found }
    {
        if self.at_page {
            self.after_page(layout, found);
            return;
        }
        match &mut self.stage {
            WorkerStage::LoadPhase => self.by_phase(layout, found),
            WorkerStage::LoadPage => self.after_page(layout, found),
            WorkerStage::Sweeping(sweep) => {
                // One that is lost another has begun.
                if sweep.take(layout, found).is_some() {
                    self.stage = WorkerStage::LoadPhase;
                    self.page_done(layout);
                }
            }
            WorkerStage::EarningAtStop(_, stops) => {
                let stops = *stops;
                self.handed_over();
                self.at_page = false;
                self.stage = self.gives_back(stops);
            }
            WorkerStage::GiveBack(_, stops) => {
                let stops = *stops;
                self.given_back(stops);
            }
            WorkerStage::Resuming(resume) => {
                if let Some(resumed) = resume.take(layout, found) {
                    self.view = resumed.view;
                    self.stage = WorkerStage::LoadPhase;
                }
            }
            WorkerStage::Leave => {
                self.at_page = false;
                self.stage = WorkerStage::Done;
            }
            WorkerStage::Done => {}
            _ => self.mark(layout, found),
        }
    }

    /// What it has given: it ends where it is done.
    fn given(&self) -> Option<()>
        ensures { result ≡ given self.now }
    {
        match self.stage {
            WorkerStage::Done => Some(()),
            _ => None,
        }
    }
}

/// The page behind this one, and behind the last the first.
fn page_past(layout: &Layout, page: u32) -> u32
    requires { page < layout.now.pages }
    ensures { result ≡ page_past layout.now page }
{
    if page + 1 < layout.pages { page + 1 } else { 0 }
}

/// There is a global of this number.
fn is_global(layout: &Layout, number: u64) -> bool
    ensures { IsTrue result ↔ (number < layout.now.globals) }
{
    number < u64::from(layout.globals)
}

impl Routine for Worker {
    ghost use Rattle.gh_worker.specs.Sound.{listing};

    type Out = ();

    ghost listing = { listing };

    #[inline(always)]
    fn next(&self, layout: &Layout) -> Req {
        if self.at_page {
            return layout.request(Ask::Load(Cell::Page(self.page)));
        }
        let ask = match &self.stage {
            WorkerStage::LoadPhase => Ask::Load(Cell::Phase),
            WorkerStage::LoadPage => Ask::Load(Cell::Page(self.page)),
            WorkerStage::Sweeping(sweep) => return sweep.next(layout),
            WorkerStage::EarningAtStop(earn, _) => return earn.next(layout),
            WorkerStage::GiveBack(give, _) => return give.next(layout),
            WorkerStage::Resuming(resume) => return resume.next(layout),
            WorkerStage::Taking(take) => return take.next(layout),
            WorkerStage::Scanning(scan) => return scan.next(layout),
            WorkerStage::Earning(earn) => return earn.next(layout),
            WorkerStage::LoadCursor => Ask::Load(Cell::Gcur),
            WorkerStage::Claim => Ask::Add(Cell::Gcur, 1),
            WorkerStage::LoadGlobal(i) => Ask::Load(Cell::Global(*i)),
            WorkerStage::Shading(shade) => return shade.next(layout),
            WorkerStage::FindRoom(_, room) => return room.next(layout),
            WorkerStage::Leave => Ask::Store(Cell::Ack(self.seat), GONE),
            WorkerStage::Done => Ask::Load(Cell::Touch),
        };
        layout.request(ask)
    }

    fn take(&mut self, layout: &Layout, found: u64) -> Option<()> {
        workers_are_routines();
        self.go(layout, found);
        self.given()
    }
}
