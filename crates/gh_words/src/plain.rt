//! Words in a plain list.
//!
//! A heap has up to millions of words, and a short script makes steps on few of them. So a block of words is cleared by
//! the first step on one of them, and memory that no step needs is never touched.

ghost use Rattle.std.specs.Prelude.{◌≡◌, ◌^◌, ◌<◌, ◌≤◌, IfOk, length, replicate, slice_index};
ghost use Rattle.std.specs.Vec.{vec_capacity};
ghost use Rattle.gh_base.specs.Cells.{length_of, opening_words, ShowsCells};
ghost use Rattle.gh_base.specs.Steps.{changed, target};
ghost use Rattle.gh_words.specs.Blocks.{place_at, SoundBlocks, BlockStands};
ghost use Rattle.gh_words.specs.declared.plain.TheConstants.{BLOCK};

use gh_base::{Ask, Cell, Layout, Req};
use std::alloc::{AllocError, Global};
use std::marker::Model;

/// The words of a heap, by their numbers.
pub trait Words {
    ghost use Rattle.std.specs.Prelude.{List, ℕ, ◌≡◌, ◌<◌, length, slice_index};
    ghost use Rattle.gh_base.specs.Steps.{changed, target};

    // The words in the order of their numbers.
    ghost list: { Self → List ℕ };

    /// Makes one step, and answers the word that it found. The step's word alone is changed.
    fn step(&mut self, request: Req) -> u64
        requires { target request < length (list self.old) }
        ensures found { result ≡ slice_index (list self.old) (target request) }
        ensures left { list self.new ≡ changed request (list self.old) };
}

impl Words for Vec<u64> {
    ghost list = { λ words. words.items };

    fn step(&mut self, request: Req) -> u64 {
        let at = request.word() as usize;
        let found = self[at];
        self[at] = request.left(found);
        found
    }
}

/// Stores what a heap of this layout opens with in other words than 0: the sweep generation 2, the slack 1, and the
/// trigger, in bytes.
fn open<W: Words>(words: &mut W, layout: &Layout, trigger: u64)
    requires { W.list words.old ≡ replicate (length_of layout.now) 0 }
    ensures { ShowsCells layout.now (W.list words.new) (opening_words layout.now trigger) }
{
    words.step(layout.request(Ask::Store(Cell::Gen, 2)));
    words.step(layout.request(Ask::Store(Cell::Slack, 1)));
    words.step(layout.request(Ask::Store(Cell::Trigger, trigger)));
}

/// The words of a heap of this layout as it opens, in one list: 0 each, save the sweep generation 2, the slack 1, and the
/// trigger, in bytes.
pub fn opening_list(alloc: Global, layout: &Layout, trigger: u64) -> Result<Vec<u64>, AllocError>
    ensures { IfOk result (λ words. ShowsCells layout.now words.items (opening_words layout.now trigger)) }
{
    let mut words = vec![in alloc; 0; layout.words() as usize]?;
    open(&mut words, layout, trigger);
    Ok(words)
}

/// The words of a block: so few that one is cleared quickly, and so many that a heap has few blocks.
const BLOCK: usize = 1024;

/// The place of a block that no step was made on: it has no memory yet.
const NOWHERE: u32 = u32::MAX;

/// The words of a heap in a list, which is in blocks. The memory for all of them is one piece, taken when the heap opens.
/// The first step on a block gives it the next part of that piece, and clears it.
#[derive(Debug, Drop)]
pub struct Plain {
    // The blocks that a step was made on, in the order of their first steps.
    used: Vec<[u64; BLOCK]>,
    // Where each block stands among those, or NOWHERE: its words are then 0.
    places: Vec<u32>,
    count: usize,
}

impl Model for Plain {
    ghost use Rattle.std.specs.Prelude.{List, ℕ, ◌*◌, ◌≤◌, length};
    ghost use Rattle.std.specs.Vec.{vec_capacity};
    ghost use Rattle.gh_words.specs.Blocks.{spread_numbers, SoundBlocks};
    ghost use Rattle.gh_words.specs.declared.plain.TheConstants.{BLOCK};

    ghost Value = { List ℕ };

    ghost view = { λ p. spread_numbers p.used.items p.places.items p.count };

    ghost invariant = { λ p.
        (p.count ≤ length p.places.items * BLOCK)
        × SoundBlocks p.used.items p.places.items (vec_capacity p.used) };
}

/// Clears memory for this block, which stands nowhere, behind the used ones. Answers where it stands from now on.
#[cold]
#[inline(never)]
fn begin(used: &mut Vec<[u64; BLOCK]>, places: &mut Vec<u32>, block: usize) -> usize
    requires there { block < length places.old.items }
    requires unused { length used.old.items ≤ place_at places.old.items block }
    requires fits { SoundBlocks used.old.items places.old.items (vec_capacity used.old) }
    ensures fits { SoundBlocks used.new.items places.new.items (vec_capacity used.new) }
    ensures stands { BlockStands block result used.old.items used.new.items places.old.items places.new.items }
{
    let place = used.len();
    used.push_reserved([0; BLOCK]);
    places[block] = place as u32;
    place
}

/// Where this block stands among the used ones. If it stands nowhere, it begins to be used.
#[inline(always)]
fn place_of(used: &mut Vec<[u64; BLOCK]>, places: &mut Vec<u32>, block: usize) -> usize
    requires there { block < length places.old.items }
    requires fits { SoundBlocks used.old.items places.old.items (vec_capacity used.old) }
    ensures fits { SoundBlocks used.new.items places.new.items (vec_capacity used.new) }
    ensures stands { BlockStands block result used.old.items used.new.items places.old.items places.new.items }
{
    let place = places[block] as usize;
    if place < used.len() {
        place
    } else {
        begin(used, places, block)
    }
}

impl Plain {
    /// The words of a heap of this layout as it opens: 0 each, save the sweep generation 2, the
    /// slack 1, and the trigger, in bytes. It takes all the memory that there is need for.
    pub fn new(alloc: Global, layout: &Layout, trigger: u64) -> Result<Plain, AllocError>
        ensures { IfOk result (λ words. ShowsCells layout.now words (opening_words layout.now trigger)) }
    {
        let mut words = Plain::cleared(alloc, layout.words() as usize)?;
        open(&mut words, layout, trigger);
        Ok(words)
    }

    /// So many zeros.
    fn cleared(alloc: Global, length: usize) -> Result<Plain, AllocError>
        requires { length < 2 ^ 32 }
        ensures { IfOk result (λ words. words ≡ replicate length 0) }
    {
        let blocks = length / BLOCK + 1;
        let used = Vec::with_capacity(alloc, blocks)?;
        let places = vec![in alloc; NOWHERE; blocks]?;
        Ok(Plain {
            used,
            places,
            count: length,
        })
    }

    /// How many words there are.
    pub fn count(&self) -> usize
        ensures { result ≡ length self.now }
    {
        self.count
    }

    /// The word of this number.
    #[inline(always)]
    pub fn word_at(&self, word: u32) -> u64
        requires { word < length self.now }
        ensures { result ≡ slice_index self.now word }
    {
        let at = word as usize;
        let place = self.places[at / BLOCK] as usize;
        if place >= self.used.len() {
            return 0;
        }
        self.used[place][at % BLOCK]
    }
}

impl Words for Plain {
    ghost list = { λ p. p };

    fn step(&mut self, request: Req) -> u64 {
        let at = request.word() as usize;
        let place = place_of(&mut self.used, &mut self.places, at / BLOCK);
        let found = self.used[place][at % BLOCK];
        self.used[place][at % BLOCK] = request.left(found);
        found
    }
}
