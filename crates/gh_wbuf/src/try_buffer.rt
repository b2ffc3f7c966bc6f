//! The routine that tries to take one buffer.

ghost use Rattle.std.specs.Prelude.{◌≡◌, ◌≤◌, Option, true};
ghost use Rattle.gh_base.specs.declared.layout.Layout.{Layout};
ghost use Rattle.gh_wbuf.specs.Trying.{claims, given, gives_back, GivesServing, goes, is_busy, is_open, opening, SoundTrying, taken_word};

use gh_base::{Ask, BufferWord, Cell, ENTRIES, Held, Layout, Req, Routine};

/// The most entries of a buffer that has room: two more go in.
pub const MOST_WITH_ROOM: u32 = ENTRIES - 2;

/// What a buffer is to have.
#[derive(Clone, Copy, Debug, PartialEq, Eq)]
pub enum Wish {
    /// Room for two entries.
    Room,
    /// An entry.
    Entry,
}

/// The stages of a try.
#[derive(Clone, Copy, Debug, PartialEq, Eq)]
pub enum TryStage {
    /// It loads the buffer's word.
    Look,
    /// It gives the buffer that is held back, to take the one with this word.
    GiveBack(u64),
    /// It takes the buffer by a swap of this word.
    Claim(u64),
    /// It has ended, and has taken this buffer, or `None`.
    Ended(Option<Held>),
}

/// Tries to take one buffer.
///
/// It loads the buffer's word. Where nobody holds the buffer and it has what is wished, it swaps that
/// very word for one with its seat as the holder; a buffer that is held is given back before. It ends
/// with the buffer that it has taken, and with `None` where the word said otherwise, or where the swap
/// found another word than the load: another actor was there first.
#[derive(Clone, Copy, Debug, PartialEq, Eq)]
pub struct TryBuffer {
    /// Whose try it is.
    pub seat: u32,
    /// What the buffer is to have.
    pub wish: Wish,
    /// The buffer that it tries.
    pub index: u32,
    /// The buffer that is held now, if any.
    pub held: Option<Held>,
    /// Its stage.
    pub stage: TryStage,
}

/// The store that gives a held buffer back: its word is its count, and nobody holds it.
pub(crate) fn give_back(held: Held) -> Ask
    requires { held.count ≤ ENTRIES }
    ensures { result ≡ gives_back held }
{
    let free = BufferWord {
        count: held.count,
        holder: 0,
    };
    Ask::Store(Cell::Buffer(held.index), free.pack())
}

impl Wish {
    /// By its word nobody holds the buffer, and it has what is wished.
    pub(crate) fn is_met_by(self, found: u64) -> bool
        ensures { result ≡ is_open self found }
    {
        let word = BufferWord::unpack(found);
        let serves = match self {
            Wish::Room => word.count <= MOST_WITH_ROOM,
            Wish::Entry => 0 < word.count,
        };
        word.holder == 0 && serves
    }
}

impl TryBuffer {
    /// The seat tries to take the buffer of this index, and holds this one, if any.
    pub fn new(seat: u32, wish: Wish, index: u32, held: Option<Held>) -> TryBuffer
        ensures { result ≡ opening seat wish index held }
    {
        TryBuffer {
            seat,
            wish,
            index,
            held,
            stage: TryStage::Look,
        }
    }

    /// The word of the buffer once it is taken.
    fn taken_word(&self, word: u64) -> u64
        ensures { result ≡ taken_word self.now.seat word }
    {
        BufferWord {
            count: BufferWord::unpack(word).count,
            holder: u64::from(self.seat) + 1,
        }
        .pack()
    }

    /// What it does with an open buffer.
    fn claims(&self, word: u64) -> TryStage
        ensures { result ≡ claims self.now self.now.held word }
    {
        match self.held {
            Some(_) => TryStage::GiveBack(word),
            None => TryStage::Claim(word),
        }
    }

    /// Goes on by the buffer's word.
    fn look(&mut self, found: u64)
        requires { self.old.stage ≡ TryStage.Look }
        ensures goes { self.new ≡ goes self.old found }
        ensures serves { (l : Layout) → GivesServing l self.old.wish (given self.new) }
    {
        self.stage = if self.wish.is_met_by(found) {
            self.claims(found)
        } else {
            TryStage::Ended(None)
        };
    }

    /// Ends by what the swap of this word found.
    fn claim(&mut self, word: u64, found: u64)
        requires at { self.old.stage ≡ TryStage.Claim word }
        ensures goes { self.new ≡ goes self.old found }
        ensures serves { (l : Layout) → SoundTrying l self.old → GivesServing l self.old.wish (given self.new) }
    {
        if found != word {
            self.stage = TryStage::Ended(None);
            return;
        }
        let taken = Some(Held {
            index: self.index,
            count: BufferWord::unpack(word).count,
        });
        self.held = taken;
        self.stage = TryStage::Ended(taken);
    }

    /// What it has given.
    fn given(&self) -> Option<Option<Held>>
        ensures { result ≡ given self.now }
    {
        match self.stage {
            TryStage::Ended(taken) => Some(taken),
            _ => None,
        }
    }
}

impl Routine for TryBuffer {
    ghost use Rattle.gh_wbuf.specs.Trying.{listing};

    type Out = Option<Held>;

    ghost listing = { listing };

    fn next(&self, layout: &Layout) -> Req {
        match self.stage {
            TryStage::Look => layout.request(Ask::Load(Cell::Buffer(self.index))),
            TryStage::GiveBack(_) => match self.held {
                Some(held) => layout.request(give_back(held)),
                None => layout.request(Ask::Load(Cell::Touch)),
            },
            TryStage::Claim(word) => {
                let taken = self.taken_word(word);
                layout.request(Ask::Swap(Cell::Buffer(self.index), word, taken))
            }
            TryStage::Ended(_) => layout.request(Ask::Load(Cell::Touch)),
        }
    }

    fn take(&mut self, layout: &Layout, found: u64) -> Option<Option<Held>>
        requires sound { SoundTrying layout.now self.old }
        requires busy { is_busy self.old.stage ≡ true }
        ensures state { self.new ≡ goes self.old found }
        ensures out { result ≡ given self.new }
        ensures sound { SoundTrying layout.now self.new }
        ensures serves { GivesServing layout.now self.old.wish result }
    {
        match self.stage {
            TryStage::Look => self.look(found),
            TryStage::GiveBack(word) => {
                self.held = None;
                self.stage = TryStage::Claim(word);
            }
            TryStage::Claim(word) => self.claim(word, found),
            TryStage::Ended(_) => {}
        }
        self.given()
    }
}
