//! The routine by which a processor scans the stack of one of its goroutines.

ghost use Rattle.std.specs.Prelude.{◌≡◌, ◌*◌, ◌<◌, ◌≤◌, Option, true};
ghost use Rattle.gh_base.specs.Cells.{seats_of};
ghost use Rattle.gh_base.specs.Holding.{IsHeld};
ghost use Rattle.gh_base.specs.Machines.{Runs};
ghost use Rattle.gh_shade.specs.Listing as shades;
ghost use Rattle.gh_shade.specs.Sound.{IsReference};
ghost use Rattle.gh_scan.specs.Listing.{reference_in};
ghost use Rattle.gh_stack.specs.Listing as stacks;
ghost use Rattle.gh_poll.specs.MarkStack.{given, goes_at, goes_on, is_busy, opening, stage_of, with_shaded};
ghost use Rattle.gh_poll.specs.MarkStackSound.{SoundStackMarking, SoundStage, StackShadingWaits};

use gh_base::{Ask, Cell, Held, Layout, Req, Routine, Value};
use gh_shade::{Shade, Shaded};
use gh_stack::{REGISTER_COUNT, ScanStack};
use gh_wbuf::FindRoom;

/// The stages of the scan of a stack, with the shading.
#[derive(Clone, Copy, Debug, PartialEq, Eq)]
pub enum MarkStackStage {
    /// It shades what a register names.
    Shading(Shade),
    /// It looks for a buffer with room, which that shading waits for.
    FindRoom(Shade, FindRoom),
    /// It stores the cycle.
    Store,
    /// It has ended: the stack is black.
    Ended,
}

/// Scans the stack of a goroutine, and shades what it wishes for (Go's `markroot` of a stack, mgcmark.go).
///
/// Each reference in the registers is shaded, with a buffer with room looked for where the shading wishes
/// for one. Then the cycle is stored as the stack's last.
#[derive(Clone, Copy, Debug, PartialEq, Eq)]
pub struct MarkStack {
    /// Its seat.
    pub seat: u32,
    /// The buffer that is held between two shadings, and once it has ended, if any.
    pub held: Option<Held>,
    /// The scan.
    pub scan: ScanStack,
    /// Its stage.
    pub stage: MarkStackStage,
}

/// A reference of this heap: one that lies outside is taken modulo the heap's words.
fn near(layout: &Layout, reference: u64) -> u64
    ensures is { result ≡ reference_in layout.now reference }
    ensures fits { IsReference layout.now result }
{
    let words = 1024 * u64::from(layout.pages);
    reference.saturating_sub(1) % words + 1
}

/// What follows in this scan: the shading of what it wishes for, or the store.
#[tactic(auto, using(crate::proofs::StackMarking::stores_then, crate::proofs::StackMarking::waits_then))]
fn stage_of(layout: &Layout, held: Option<Held>, scan: &ScanStack) -> MarkStackStage
    requires held { IsHeld layout.now held }
    requires going { goes_on scan.now.stage ≡ true }
    ensures is { result ≡ stage_of layout.now held scan.now }
    ensures fits { SoundStage layout.now scan.now result }
{
    match scan.wish() {
        None => MarkStackStage::Store,
        Some(reference) => { MarkStackStage::Shading(Shade::new(near(layout, reference), held)) }
    }
}

impl MarkStack {
    /// The seat scans the stack of this goroutine in this cycle; its registers are these, and this buffer is
    /// held, if any.
    pub fn new(
        layout: &Layout,
        seat: u32,
        goroutine: u32,
        cycle: u64,
        registers: [Value; REGISTER_COUNT],
        held: Option<Held>,
    ) -> MarkStack
        requires seat { seat < seats_of layout.now }
        requires goroutine { goroutine < layout.now.goroutines }
        requires held { IsHeld layout.now held }
        ensures opening { result ≡ opening layout.now seat goroutine cycle registers held }
        ensures sound { SoundStackMarking layout.now result }
        ensures begun { is_busy result.stage ≡ true }
    {
        let scan = ScanStack::new(goroutine, cycle, registers);
        MarkStack {
            seat,
            held,
            scan,
            stage: stage_of(layout, held, &scan),
        }
    }

    /// A reference is shaded, and this is held: it goes on with the next.
    #[tactic(auto, using(crate::proofs::StackMarking::told_going))]
    fn shaded(&mut self, layout: &Layout, held: Option<Held>)
        requires sound { SoundStackMarking layout.now self.old }
        requires held { IsHeld layout.now held }
        requires waits { stacks.is_waiting self.old.scan.stage ≡ true }
        ensures goes { self.new ≡ with_shaded layout.now self.old held }
        ensures sound { SoundStackMarking layout.now self.new }
    {
        let mut scan = self.scan;
        scan.told_shaded();
        self.held = held;
        self.stage = stage_of(layout, held, &scan);
        self.scan = scan;
    }

    /// Takes a step of this shading.
    fn shade(&mut self, layout: &Layout, shade: &Shade, found: u64)
        requires sound { SoundStackMarking layout.now self.old }
        requires runs { Runs (shades.listing layout.now) shade.now }
        requires waits { stacks.is_waiting self.old.scan.stage ≡ true }
        ensures goes { self.new ≡ goes_at layout.now self.old (MarkStackStage.Shading shade.now) found }
        ensures sound { SoundStackMarking layout.now self.new }
    {
        let mut shade = *shade;
        match shade.take(layout, found) {
            None => self.stage = MarkStackStage::Shading(shade),
            Some(Shaded::Done) => self.shaded(layout, shade.held),
            Some(Shaded::WantsRoom) => {
                let room = FindRoom::new(self.seat, shade.held);
                self.stage = MarkStackStage::FindRoom(shade, room);
            }
        }
    }

    /// Takes a step of this search for room, which that shading waits for.
    fn find_room(&mut self, layout: &Layout, shade: &Shade, room: &FindRoom, found: u64)
        requires sound { SoundStackMarking layout.now self.old }
        requires waits { StackShadingWaits layout.now self.old.scan shade.now room.now }
        ensures goes { self.new ≡ goes_at layout.now self.old (MarkStackStage.FindRoom shade.now room.now) found }
        ensures sound { SoundStackMarking layout.now self.new }
    {
        let (mut shade, mut room) = (*shade, *room);
        match room.take(layout, found) {
            None => self.stage = MarkStackStage::FindRoom(shade, room),
            Some(held) => {
                shade.told_room(held);
                self.stage = MarkStackStage::Shading(shade);
            }
        }
    }

    /// What it has given: it has ended, or not.
    fn given(&self) -> Option<()>
        ensures { result ≡ given self.now.stage }
    {
        match self.stage {
            MarkStackStage::Ended => Some(()),
            _ => None,
        }
    }
}

impl Routine for MarkStack {
    ghost use Rattle.gh_poll.specs.MarkStack.{listing};

    type Out = ();

    ghost listing = { listing };

    fn next(&self, layout: &Layout) -> Req {
        match &self.stage {
            MarkStackStage::Shading(shade) => shade.next(layout),
            MarkStackStage::FindRoom(_, room) => room.next(layout),
            MarkStackStage::Store => self.scan.next(layout),
            MarkStackStage::Ended => layout.request(Ask::Load(Cell::Touch)),
        }
    }

    fn take(&mut self, layout: &Layout, found: u64) -> Option<()> {
        match &self.stage {
            MarkStackStage::Shading(shade) => {
                let shade = *shade;
                self.shade(layout, &shade, found);
            }
            MarkStackStage::FindRoom(shade, room) => {
                let (shade, room) = (*shade, *room);
                self.find_room(layout, &shade, &room, found);
            }
            MarkStackStage::Store => self.stage = MarkStackStage::Ended,
            MarkStackStage::Ended => {}
        }
        self.given()
    }
}
