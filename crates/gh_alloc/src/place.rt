//! The routine that makes an object in its slot, and tells whether a cycle is due.
//!
//! A cycle is due where the heap's bytes reach the trigger (Go's `gcTrigger.test` for `gcTriggerHeap`, mgc.go). The
//! object whose bytes bring them there is the one to tell, so the trigger is loaded behind the step that adds them.
//! That step finds what the heap had before, and so each object compares a sum of its own, however many are counted
//! at the same time. While a cycle is under way the trigger is 2^64 - 1, so that a second one is not asked for; and
//! who knows that marking is on does not look.

ghost use Rattle.std.specs.Prelude.{◌≡◌, ℕ, ◌+◌, ◌*◌, ◌^◌, ◌<◌, ◌≤◌, IsTrue, None, Some, false, length, slice_index, true};
ghost use Rattle.gh_base.specs.Cells.{InRange, length_of};
ghost use Rattle.gh_base.specs.Steps.{cell_of, changed, request, target};
ghost use Rattle.gh_base.specs.declared.cell.Ask.TheVariants.{Load};
ghost use Rattle.gh_base.specs.declared.cell.Cell.TheVariants.{Trigger};
ghost use Rattle.gh_base.specs.declared.layout.Layout.{Layout};
ghost use Rattle.gh_alloc.specs.Place.{asks, counted, filled, given, goes, goes_further, is_busy, made, makes_its_object, opening};
ghost use Rattle.gh_alloc.specs.PlaceSound.{Sound};
ghost use Rattle.gh_alloc.specs.declared.place.PlaceStage.TheVariants.{Bits};
ghost use Rattle.gh_bitmap.specs.SetPointers as setting;

use crate::laws::making_is_a_routine;
use gh_base::laws::cells_have_words_of_their_own;
use gh_base::{Ask, Cell, Layout, Name, Req, Routine, Shape, SpanHead};
use gh_bitmap::SetPointers;
use gh_central::GiveBack;
use gh_words::Words;
use std::marker::Model;

/// The stages of the making of an object.
#[derive(Drop)]
pub enum PlaceStage<'s> {
    /// It clears this field word of the slot.
    Clear(u32),
    /// It writes the birth word.
    Birth,
    /// It writes the pointer bits.
    Bits(SetPointers<'s>),
    /// It sets the mark bit, where marking is on.
    Mark,
    /// It sets the alloc bit: by this step the object is made.
    Alloc,
    /// It gives a large object's span back.
    Give(GiveBack),
    /// It counts the slot's bytes.
    Count,
    /// It loads the trigger, where marking is off: the heap has this many bytes with the slot's.
    LoadTrigger(u64),
    /// It has ended, and says whether a cycle is to be asked for.
    Ended(bool),
}

/// Makes an object in its slot (Go's `mallocgc`, from the slot on, in malloc.go).
///
/// It clears each word of the slot, in ascending order, writes the object's name to the birth word of
/// the first, and the slot's pointer bits by the type's shape. Then it sets the alloc bit of the first
/// word: from that step on the object is there, and whoever sees it sees its fields clear and its
/// pointer bits as they are to be. A large object's span is given back, so that nobody has it cached,
/// and the slot's bytes are counted. Where the heap's bytes with these reach the trigger, a cycle is to be asked for.
///
/// While marking is on the object is made black (`gcmarknewobject` in mgcmark.go): its mark bit is set
/// by the step before. The mark comes first because the alloc bit shows the slot to everyone. Whoever
/// loads it from then on takes the object for one of the cycle, and a sweep keeps it by its mark alone,
/// so that it has to be marked by then; marked later, it could be swept in between. Before the alloc
/// bit is set nothing refers to the slot, and its fields are clear: a mark alone harms nobody.
#[derive(Drop)]
pub struct Place<'s> {
    shape: &'s Shape,
    at: u32,
    slot: u32,
    name: Name,
    span: Option<SpanHead>,
    marking: bool,
    stage: PlaceStage<'s>,
}

impl<'s> Model for Place<'s> {
    ghost use Rattle.gh_alloc.specs.Place.{Placing};

    ghost Value = { Placing };

    ghost view = { λ p. record { shape = p.shape.now; at = p.at; slot = p.slot; name = p.name; span = p.span; marking = p.marking; stage = p.stage } };
}

impl<'s> Place<'s> {
    /// Makes an object of this shape and name in the slot of `slot` words, 1 to `MOST_TYPE_WORDS`, whose first heap
    /// word is `at`. A large object has a span of its own, and `span` is what that span's head word says. Where
    /// marking is on it is marked.
    pub fn new(
        shape: &'s Shape,
        at: u32,
        slot: u32,
        name: Name,
        span: Option<SpanHead>,
        marking: bool,
    ) -> Place<'s>
        ensures { result ≡ opening shape.now at slot name span marking }
    {
        Place {
            shape,
            at,
            slot,
            name,
            span,
            marking,
            stage: PlaceStage::Clear(0),
        }
    }

    /// The first heap word of the slot.
    pub fn word(&self) -> u32
        ensures is { result ≡ self.now.at }
        ensures within { (l : Layout) → Sound l self.now → result + self.now.slot ≤ 1024 * l.pages }
        ensures some { (l : Layout) → Sound l self.now → 1 ≤ self.now.slot }
    {
        self.at
    }

    /// The object's name.
    pub fn name(&self) -> Name
        ensures { result ≡ self.now.name }
    {
        self.name
    }

    /// The next step makes the object.
    pub fn acts(&self) -> bool
        ensures { result ≡ makes_its_object self.now }
    {
        match self.stage {
            PlaceStage::Alloc => true,
            _ => false,
        }
    }

    /// What follows once the object is made.
    fn made(&self) -> PlaceStage<'s>
        ensures { result ≡ made self.now self.now.span }
    {
        match self.span {
            Some(head) => PlaceStage::Give(GiveBack::new(self.at / 1024, head)),
            None => PlaceStage::Count,
        }
    }

    /// It writes the pointer bits next.
    fn bits(&self) -> PlaceStage<'s>
        ensures { result ≡ Bits (setting.opening self.now.shape self.now.at self.now.slot) }
    {
        PlaceStage::Bits(SetPointers::new(self.shape, self.at, self.slot))
    }

    /// What follows once the slot's bytes are counted, where the heap had this many before: it ends while marking is on.
    fn counted(&self, found: u64) -> PlaceStage<'s>
        ensures { result ≡ counted self.now found }
    {
        if self.marking {
            PlaceStage::Ended(false)
        } else {
            PlaceStage::LoadTrigger(found.wrapping_add(8 * u64::from(self.slot)))
        }
    }

    /// What it has given.
    fn given(&self) -> Option<bool>
        ensures { result ≡ given self.now }
    {
        match &self.stage {
            PlaceStage::Ended(asks) => Some(*asks),
            _ => None,
        }
    }
}

/// What follows once the pointer bits are written: the mark, where marking is on.
fn filled<'s>(marking: bool) -> PlaceStage<'s>
    ensures { result ≡ filled marking }
{
    if marking {
        PlaceStage::Mark
    } else {
        PlaceStage::Alloc
    }
}

impl<'s> Place<'s> {
    /// Its next step neither gives a span back, nor is its last: [`Place::make_on`] may make it.
    #[inline(always)]
    pub fn goes_further(&self) -> bool
        ensures exactly { result ≡ goes_further self.now }
        ensures busy { IsTrue result → given self.now ≡ None }
        ensures goes_on { IsTrue result → (found : ℕ) → given (goes self.now found) ≡ None }
    {
        match self.stage {
            PlaceStage::Clear(_)
            | PlaceStage::Birth
            | PlaceStage::Bits(_)
            | PlaceStage::Mark
            | PlaceStage::Alloc => true,
            PlaceStage::Count => !self.marking,
            _ => false,
        }
    }

    /// Makes such a step, which found this. Most steps of a making are such, and change a number or the stage alone.
    #[inline(always)]
    fn goes_on(&mut self, layout: &Layout, found: u64)
        requires sound { Sound layout.now self.old }
        requires further { goes_further self.old ≡ true }
        ensures goes { self.new ≡ goes self.old found }
        ensures sound { Sound layout.now self.new }
    {
        making_is_a_routine();
        match &mut self.stage {
            PlaceStage::Clear(k) => {
                let next = *k + 1;
                if next < self.slot {
                    *k = next;
                } else {
                    self.stage = PlaceStage::Birth;
                }
            }
            PlaceStage::Birth => self.stage = self.bits(),
            PlaceStage::Bits(bits) => {
                if bits.take(layout, found).is_some() {
                    self.stage = filled(self.marking);
                }
            }
            PlaceStage::Mark => self.stage = PlaceStage::Alloc,
            PlaceStage::Alloc => self.stage = self.made(),
            PlaceStage::Count => self.stage = self.counted(found),
            _ => {}
        }
    }

    /// Makes its next step on these words, where that is such a step.
    #[inline(always)]
    pub fn make_on<W: Words>(&mut self, layout: &Layout, words: &mut W)
        requires sound { Sound layout.now self.old }
        requires further { goes_further self.old ≡ true }
        requires long { length (W.list words.old) ≡ length_of layout.now }
        ensures words { W.list words.new ≡ changed (request layout.now (asks layout.now self.old)) (W.list words.old) }
        ensures within { InRange layout.now (cell_of (asks layout.now self.old)) }
        ensures goes { let found = slice_index (W.list words.old) (target (request layout.now (asks layout.now self.old))) in
            self.new ≡ goes self.old found }
        ensures sound { Sound layout.now self.new }
    {
        making_is_a_routine();
        cells_have_words_of_their_own(layout);
        match &mut self.stage {
            PlaceStage::Clear(k) => {
                words.step(layout.request(Ask::Store(Cell::Field(self.at + *k), 0)));
                let next = *k + 1;
                if next < self.slot {
                    *k = next;
                } else {
                    self.stage = PlaceStage::Birth;
                }
            }
            PlaceStage::Birth => {
                words.step(layout.request(Ask::Store(Cell::Birth(self.at), self.name.pack())));
                self.stage = self.bits();
            }
            PlaceStage::Bits(bits) => {
                let found = words.step(bits.next(layout));
                if bits.take(layout, found).is_some() {
                    self.stage = filled(self.marking);
                }
            }
            PlaceStage::Mark => {
                words.step(layout.request(Ask::Or(Cell::Mark(self.at / 64), 1 << (self.at % 64))));
                self.stage = PlaceStage::Alloc;
            }
            PlaceStage::Alloc => {
                words.step(layout.request(Ask::Or(Cell::Alloc(self.at / 64), 1 << (self.at % 64))));
                self.stage = self.made();
            }
            PlaceStage::Count => {
                let more = 8 * u64::from(self.slot);
                let found = words.step(layout.request(Ask::Add(Cell::Heap, more)));
                self.stage = self.counted(found);
            }
            _ => {}
        }
    }

    /// It loads the trigger, and the heap's bytes do not reach what that finds: by this word it ends, and no cycle is to be
    /// asked for.
    #[inline(always)]
    pub fn ends_by(&self, found: u64) -> bool
        ensures gives { IsTrue result → given (goes self.now found) ≡ Some false }
        ensures acts { IsTrue result → makes_its_object self.now ≡ false }
    {
        match self.stage {
            PlaceStage::LoadTrigger(bytes) => found > bytes,
            _ => false,
        }
    }

    /// It loads the trigger next.
    #[inline(always)]
    pub fn is_at_trigger(&self) -> bool
        ensures asks { IsTrue result → (l : Layout) → asks l self.now ≡ Load Trigger }
        ensures busy { IsTrue result → given self.now ≡ None }
        ensures acts { IsTrue result → makes_its_object self.now ≡ false }
    {
        matches!(self.stage, PlaceStage::LoadTrigger(_))
    }

    /// Goes on by what its step found.
    fn go(&mut self, layout: &Layout, found: u64)
        requires sound { Sound layout.now self.old }
        requires busy { is_busy self.old.stage ≡ true }
        ensures { self.new ≡ goes self.old found }
    {
        match &mut self.stage {
            PlaceStage::Give(_) => self.stage = PlaceStage::Count,
            PlaceStage::Count => self.stage = self.counted(found),
            PlaceStage::LoadTrigger(bytes) => self.stage = PlaceStage::Ended(found <= *bytes),
            // A cycle is asked for once.
            PlaceStage::Ended(asks) => *asks = false,
            _ => self.goes_on(layout, found),
        }
    }
}

impl<'s> Routine for Place<'s> {
    ghost use Rattle.gh_alloc.specs.Place.{listing};

    /// A cycle is to be asked for.
    type Out = bool;

    ghost listing = { listing };

    #[inline(always)]
    fn next(&self, layout: &Layout) -> Req {
        let ask = match &self.stage {
            PlaceStage::Clear(k) => Ask::Store(Cell::Field(self.at + *k), 0),
            PlaceStage::Birth => Ask::Store(Cell::Birth(self.at), self.name.pack()),
            PlaceStage::Bits(bits) => return bits.next(layout),
            PlaceStage::Mark => Ask::Or(Cell::Mark(self.at / 64), 1 << (self.at % 64)),
            PlaceStage::Alloc => Ask::Or(Cell::Alloc(self.at / 64), 1 << (self.at % 64)),
            PlaceStage::Give(give) => return give.next(layout),
            PlaceStage::Count => Ask::Add(Cell::Heap, 8 * u64::from(self.slot)),
            PlaceStage::LoadTrigger(_) => Ask::Load(Cell::Trigger),
            PlaceStage::Ended(_) => Ask::Load(Cell::Touch),
        };
        layout.request(ask)
    }

    fn take(&mut self, layout: &Layout, found: u64) -> Option<bool> {
        making_is_a_routine();
        self.go(layout, found);
        self.given()
    }
}
