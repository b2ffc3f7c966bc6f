//! The routine that scans an object.

ghost use Rattle.std.specs.Prelude.{◌≡◌, ◌+◌, ◌*◌, ◌^◌, ◌<◌, ◌≤◌, IfSome, true};
ghost use Rattle.gh_base.specs.declared.layout.Layout.{Layout};
ghost use Rattle.gh_base.specs.Holding.{IsHeld};
ghost use Rattle.gh_base.specs.Machines.{Runs};
ghost use Rattle.gh_base.specs.Packing.{page_of, slot_in};
ghost use Rattle.gh_scan.specs.Listing.{behind, bit_says_pointer, given, goes_at, held_at, is_busy, next_from, object_of, opening, with_bits, with_found_field};
ghost use Rattle.gh_scan.specs.Sound.{ShadingWaits, SoundScanning};
ghost use Rattle.gh_shade.specs.Listing as shades;
ghost use Rattle.gh_shade.specs.Sound.{IsReference};

use gh_base::{Ask, Cell, Held, Layout, PageWord, Req, Routine};
use gh_class::size_class_laws;
use gh_shade::{Shade, Shaded};
use gh_wbuf::FindRoom;

/// The stages of the scan of an object.
#[derive(Clone, Copy, Debug, PartialEq, Eq)]
pub enum ScanStage {
    /// It loads the page word of the object.
    LoadPage,
    /// It loads the bitmap word of the heap word that it is at.
    LoadBitmap,
    /// It loads the heap word that it is at, a pointer field.
    LoadField,
    /// It shades what it found there.
    Shading(Shade),
    /// It looks for a buffer with room, which that shading waits for.
    FindRoom(Shade, FindRoom),
    /// It has ended, and has scanned so many words.
    Ended(u32),
}

/// Scans an object (Go's `scanobject`, mgcmark.go).
///
/// It loads the page word, which gives the words of the slot. Then it goes over these in ascending order. At
/// the first of them, and at each whose index in the heap is a multiple of 64, it loads the bitmap word.
/// Where the bit of the word is set it loads the field, and shades the object that is named there, if one
/// is. It ends with the slot's words.
#[derive(Clone, Copy, Debug, PartialEq, Eq)]
pub struct Scan {
    /// Whose scan it is.
    pub seat: u32,
    /// The reference of the object, the index of its first heap word plus 1.
    pub reference: u64,
    /// The buffer that is held between shadings, if any.
    pub held: Option<Held>,
    /// The words of the slot.
    pub slot: u32,
    /// The heap word that it is at.
    pub at: u32,
    /// The bitmap word that it found last.
    pub bits: u64,
    /// Its stage.
    pub stage: ScanStage,
}

/// The words of an object's slot, by the page word that was found.
fn slot_words(found: u64) -> u32
    ensures is { result ≡ slot_in (page_of found) }
    ensures few { result < 2 ^ 23 }
{
    size_class_laws();
    PageWord::unpack(found).slot_words()
}

/// By this bitmap word heap word `x` is a pointer field.
fn is_pointer(bits: u64, x: u32) -> bool
    ensures { result ≡ bit_says_pointer bits x }
{
    (bits >> (x % 64)) & 1 == 1
}

/// The first heap word from `from` on and below `end` for which something is loaded: its bitmap word, or
/// the field.
#[tactic(auto, using(crate::proofs::Next::next_hit, crate::proofs::Next::next_miss, crate::proofs::Next::next_none))]
fn next_from(bits: u64, end: u32, from: u32) -> Option<u32>
    ensures is { result ≡ next_from bits end from }
    ensures below { IfSome result (λ x. x < end) }
{
    for x in from..end {
        if x % 64 == 0 || is_pointer(bits, x) {
            return Some(x);
        }
    }
    None
}

impl Scan {
    /// The seat scans the object of this reference, the index of its first heap word plus 1, with this
    /// buffer held, if any.
    pub fn new(seat: u32, reference: u64, held: Option<Held>) -> Scan
        ensures opening { result ≡ opening seat reference held }
        ensures begun { is_busy result.stage ≡ true }
    {
        Scan {
            seat,
            reference,
            held,
            slot: 0,
            at: 0,
            bits: 0,
            stage: ScanStage::LoadPage,
        }
    }

    /// The buffer that is held now, if any.
    pub fn held(&self) -> Option<Held>
        ensures is { result ≡ held_at self.now.held self.now.stage }
        ensures fits { (l : Layout) → SoundScanning l self.now → IsHeld l result }
    {
        match &self.stage {
            ScanStage::Shading(shade) => shade.held,
            ScanStage::FindRoom(_, room) => room.held(),
            _ => self.held,
        }
    }

    /// The first heap word of the object.
    fn object(&self, layout: &Layout) -> u32
        requires { IsReference layout.now self.now.reference }
        ensures is { result ≡ object_of self.now.reference }
        ensures there { result < 1024 * layout.now.pages }
    {
        (self.reference - 1) as u32
    }

    /// It is done with the word that it is at, and goes on to the next for which it loads something.
    fn go_on(&mut self, layout: &Layout)
        requires sound { SoundScanning layout.now self.old }
        ensures goes { self.new ≡ behind self.old }
        ensures sound { SoundScanning layout.now self.new }
    {
        match next_from(self.bits, self.object(layout) + self.slot, self.at + 1) {
            None => self.stage = ScanStage::Ended(self.slot),
            Some(x) => {
                self.at = x;
                self.stage = if x % 64 == 0 {
                    ScanStage::LoadBitmap
                } else {
                    ScanStage::LoadField
                };
            }
        }
    }

    /// Begins at the first word of the slot, by the page word.
    fn begin(&mut self, layout: &Layout, found: u64)
        requires sound { SoundScanning layout.now self.old }
        ensures goes { self.new ≡ goes_at layout.now self.old ScanStage.LoadPage found }
        ensures sound { SoundScanning layout.now self.new }
    {
        self.slot = slot_words(found);
        self.at = self.object(layout);
        self.stage = ScanStage::LoadBitmap;
    }

    /// Goes on by the bitmap word.
    fn read_bits(&mut self, layout: &Layout, found: u64)
        requires sound { SoundScanning layout.now self.old }
        ensures goes { self.new ≡ with_bits self.old found }
        ensures sound { SoundScanning layout.now self.new }
    {
        self.bits = found;
        if is_pointer(found, self.at) {
            self.stage = ScanStage::LoadField;
        } else {
            self.go_on(layout);
        }
    }

    /// Goes on by what the field holds: nil, or a reference.
    fn read_field(&mut self, layout: &Layout, found: u64)
        requires sound { SoundScanning layout.now self.old }
        ensures goes { self.new ≡ with_found_field layout.now self.old found }
        ensures sound { SoundScanning layout.now self.new }
    {
        if found == 0 {
            self.go_on(layout);
        } else {
            let words = 1024 * u64::from(layout.pages);
            let reference = (found - 1) % words + 1;
            self.stage = ScanStage::Shading(Shade::new(reference, self.held));
        }
    }

    /// Takes a step of this shading.
    fn shade(&mut self, layout: &Layout, shade: Shade, found: u64)
        requires sound { SoundScanning layout.now self.old }
        requires runs { Runs (shades.listing layout.now) shade }
        ensures goes { self.new ≡ goes_at layout.now self.old (ScanStage.Shading shade) found }
        ensures sound { SoundScanning layout.now self.new }
    {
        let mut shade = shade;
        match shade.take(layout, found) {
            None => self.stage = ScanStage::Shading(shade),
            Some(Shaded::Done) => {
                self.held = shade.held;
                self.go_on(layout);
            }
            Some(Shaded::WantsRoom) => {
                let room = FindRoom::new(self.seat, shade.held);
                self.stage = ScanStage::FindRoom(shade, room);
            }
        }
    }

    /// Takes a step of this search for room, which that shading waits for.
    fn find_room(&mut self, layout: &Layout, shade: Shade, room: FindRoom, found: u64)
        requires sound { SoundScanning layout.now self.old }
        requires waits { ShadingWaits layout.now shade room }
        ensures goes { self.new ≡ goes_at layout.now self.old (ScanStage.FindRoom shade room) found }
        ensures sound { SoundScanning layout.now self.new }
    {
        let (mut shade, mut room) = (shade, room);
        match room.take(layout, found) {
            None => self.stage = ScanStage::FindRoom(shade, room),
            Some(held) => {
                shade.told_room(held);
                self.stage = ScanStage::Shading(shade);
            }
        }
    }

    /// What it has given: the words that it has scanned, where it has ended.
    fn given(&self) -> Option<u32>
        ensures { result ≡ given self.now }
    {
        match self.stage {
            ScanStage::Ended(words) => Some(words),
            _ => None,
        }
    }
}

impl Routine for Scan {
    ghost use Rattle.gh_scan.specs.Listing.{listing};

    type Out = u32;

    ghost listing = { listing };

    fn next(&self, layout: &Layout) -> Req {
        match &self.stage {
            ScanStage::LoadPage => {
                layout.request(Ask::Load(Cell::Page(self.object(layout) / 1024)))
            }
            ScanStage::LoadBitmap => {
                let group = self.at / 64 % (16 * layout.pages);
                layout.request(Ask::Load(Cell::Bitmap(group)))
            }
            ScanStage::LoadField => {
                let field = self.at % (1024 * layout.pages);
                layout.request(Ask::Load(Cell::Field(field)))
            }
            ScanStage::Shading(shade) => shade.next(layout),
            ScanStage::FindRoom(_, room) => room.next(layout),
            ScanStage::Ended(_) => layout.request(Ask::Load(Cell::Touch)),
        }
    }

    fn take(&mut self, layout: &Layout, found: u64) -> Option<u32> {
        match &self.stage {
            ScanStage::LoadPage => self.begin(layout, found),
            ScanStage::LoadBitmap => self.read_bits(layout, found),
            ScanStage::LoadField => self.read_field(layout, found),
            ScanStage::Shading(shade) => {
                let shade = *shade;
                self.shade(layout, shade, found);
            }
            ScanStage::FindRoom(shade, room) => {
                let (shade, room) = (*shade, *room);
                self.find_room(layout, shade, room, found);
            }
            ScanStage::Ended(_) => {}
        }
        self.given()
    }
}
