//! The words of the heap, each by what it is for, and the one atomic step that an actor makes on
//! one of them.
//!
//! Code and definitions name a word by its [`Cell`]. Its number in the list of all words is the
//! layout's affair (`Layout::word`), so what is said of one row never speaks of another.

ghost use Rattle.std.specs.Prelude.{◌≡◌};
ghost use Rattle.gh_base.specs.Steps.{request_leaves, target};

/// A word of the heap.
#[derive(Clone, Copy, Debug, PartialEq, Eq)]
pub enum Cell {
    /// Always 0: what a statement loads that needs no other word.
    Touch,
    /// The number of stops and the phase: a `PhaseWord`.
    Phase,
    /// The sweep generation, 2 at first (Go's `mheap.sweepgen`).
    Gen,
    /// How many cycles have begun.
    Begun,
    /// The last swept cycle.
    Swept,
    /// The heap's lock: 0, or 1 more than the seat that has it.
    Lock,
    /// 1 where a cycle is asked for.
    Want,
    /// Background credit, in words scanned (Go's `bgScanCredit`).
    Bank,
    /// The next global to scan.
    Gcur,
    /// The bytes of placed slots.
    Heap,
    /// The bytes at which a cycle is asked for.
    Trigger,
    /// The words that are to be scanned in this cycle.
    Work,
    /// The bytes that may be allocated in this cycle; 1 at first, and never 0.
    Slack,
    /// The objects marked and freed: a `TallyWord`.
    Tally,
    /// The bytes marked.
    Live,
    /// What is known of a page: a `PageWord`.
    Page(u32),
    /// 64 heap words, a bit each, set at the first word of an object.
    Alloc(u32),
    /// 64 heap words, a bit each, set at the first word of a marked object.
    Mark(u32),
    /// 64 heap words, a bit each, set where the word is a pointer field.
    Bitmap(u32),
    /// At an object's first word its name, packed.
    Birth(u32),
    /// A heap word.
    Field(u32),
    /// A global: nil or a reference.
    Global(u32),
    /// The count and the holder of a grey work buffer: a `BufferWord`.
    Buffer(u32),
    /// A buffer's entry, by the buffer and its place, below 253.
    Entry(u32, u32),
    /// The last stop that a processor or a worker has acknowledged.
    Ack(u32),
    /// The last cycle in which a goroutine's stack was scanned.
    Scanned(u32),
}

/// One atomic step on a cell. Its answer is always the old word.
#[derive(Clone, Copy, Debug, PartialEq, Eq)]
pub enum Ask {
    /// Leaves the word.
    Load(Cell),
    /// Writes this.
    Store(Cell, u64),
    /// Sets these bits.
    Or(Cell, u64),
    /// Keeps these bits alone.
    And(Cell, u64),
    /// Adds this, modulo 2^64.
    Add(Cell, u64),
    /// Writes the second number exactly where the word is the first.
    Swap(Cell, u64, u64),
}

/// The same step on a word by its number.
#[derive(Clone, Copy, Debug, PartialEq, Eq)]
pub enum Req {
    /// Leaves the word.
    Load(u32),
    /// Writes this.
    Store(u32, u64),
    /// Sets these bits.
    Or(u32, u64),
    /// Keeps these bits alone.
    And(u32, u64),
    /// Adds this, modulo 2^64.
    Add(u32, u64),
    /// Writes the second number exactly where the word is the first.
    Swap(u32, u64, u64),
}

impl Req {
    /// The number of the word that it is on.
    #[inline(always)]
    pub fn word(self) -> u32
        ensures { result ≡ target self }
    {
        match self {
            Req::Load(word)
            | Req::Store(word, _)
            | Req::Or(word, _)
            | Req::And(word, _)
            | Req::Add(word, _)
            | Req::Swap(word, _, _) => word,
        }
    }

    /// What it leaves where it finds this.
    #[inline(always)]
    pub fn left(self, found: u64) -> u64
        ensures { result ≡ request_leaves self found }
    {
        match self {
            Req::Load(_) => found,
            Req::Store(_, value) => value,
            Req::Or(_, bits) => found | bits,
            Req::And(_, bits) => found & bits,
            Req::Add(_, more) => found.wrapping_add(more),
            Req::Swap(_, old, new) => { if found == old { new } else { found } }
        }
    }
}
