//! Which object a step shades: its mark is set, where it was clear. A processor does so in the write barrier of a store, and where
//! a poll scans a stack; what a worker shades is not told.

use gh_base::{Cell, Layout, Name, PageWord, Phase, PhaseWord};
use gh_script::Script;
use gh_world::World;
use std::alloc::{AllocError, Global};

/// The words of marks, as they stood where they were looked at last.
#[derive(Drop)]
pub struct Marks {
    words: Vec<u64>,
}

impl Marks {
    pub fn new(alloc: Global, layout: &Layout) -> Result<Marks, AllocError> {
        let words = vec![in alloc; 0u64; layout.pages as usize * 16]?;
        Ok(Marks { words })
    }

    /// Looks at the marks of the pages in use, while a cycle is marked. Answers the object whose mark was set since they were
    /// looked at last, if one was: the last of them.
    pub fn look(&mut self, script: &Script, world: &World<'_>) -> Option<Name> {
        if PhaseWord::unpack(word(world, Cell::Phase)).phase != Phase::Mark {
            return None;
        }
        let mut shaded = None;
        for page in 0..world.layout().pages {
            if let PageWord::Free = PageWord::unpack(word(world, Cell::Page(page))) {
                continue;
            }
            for i in page.saturating_mul(16)..page.saturating_add(1).saturating_mul(16) {
                let at = i as usize;
                if at < self.words.len() {
                    let marks = word(world, Cell::Mark(i));
                    let more = marks & !self.words[at];
                    self.words[at] = marks;
                    if more != 0 {
                        shaded = object(
                            script,
                            world,
                            i.saturating_mul(64).saturating_add(more.trailing_zeros()),
                        );
                    }
                }
            }
        }
        shaded
    }
}

/// The cell's word.
pub fn word(world: &World<'_>, cell: Cell) -> u64 {
    if world.layout().has(cell) {
        world.word(cell)
    } else {
        0
    }
}

/// The object whose slot begins at the heap word, where one stands there. In a slot that is marked before its object is made
/// there is none yet.
fn object(script: &Script, world: &World<'_>, index: u32) -> Option<Name> {
    let stands = word(world, Cell::Alloc(index / 64)) & (1 << (index % 64)) != 0;
    if stands {
        Some(named(script, world, index))
    } else {
        None
    }
}

/// The name of the object that stands at the heap word.
pub fn named(script: &Script, world: &World<'_>, index: u32) -> Name {
    Name::unpack(word(world, Cell::Birth(index)), script.goroutines().max(1))
}
