//! What each actor does in a run of a heap with a collector, drawn up by hand, round by round.
//!
//! One processor, one worker and the coordinator run over 16 pages, one global and one goroutine, whose statements are
//! `new r0 node` and `gc`. In each round the processor makes one step, then the worker, then the coordinator; who is
//! done is passed over. The rounds are told in phases, each of them with the same number of steps for each actor that is
//! not done.
//!
//! The object of 8 bytes, whose one field is a pointer, lies at heap word 0 in a span at page 0, so its reference is 1.
//! A phase word is 4 times the number of stops, and 0, 1, 2 or 3 where marking is off, where it is on, where the world is
//! to stop and where all is finished. The word of a buffer is its count and 256 times its holder's seat and 1.

ghost use Rattle.std.specs.Prelude.{◌≡◌};
ghost use Rattle.gh_base.specs.Steps.{cell_of};

use gh_base::Ask::{Add, And, Load, Or, Store, Swap};
use gh_base::Cell::{
    Ack, Alloc, Bank, Begun, Birth, Bitmap, Buffer, Entry, Field, Gcur, Gen, Global, Heap, Live,
    Lock, Mark, Page, Phase, Scanned, Slack, Swept, Tally, Trigger, Want, Work,
};
use gh_base::{Ask, Cell, END, GONE, Layout, Req};
use std::alloc::{AllocError, Global as Allocator};

/// The page word of the span: owned by the processor, owned by nobody, in sweep and swept again, and in the second
/// sweep and swept by that.
const OWNED: u64 = 1 + 512 + (1 << 22) + (2 << 30);

const FREE: u64 = 1 + 512 + (2 << 30);

const IN_SWEEP: u64 = 1 + 512 + (3 << 30);

const SWEPT: u64 = 1 + 512 + (4 << 30);

const IN_LAST_SWEEP: u64 = 1 + 512 + (5 << 30);

const LAST_SWEPT: u64 = 1 + 512 + (6 << 30);

/// The trigger that no allocation reaches.
pub(crate) const NEVER: u64 = u64::MAX;

/// The actors.
pub(crate) const PROCESSOR: u8 = 0;

pub(crate) const WORKER: u8 = 1;

pub(crate) const COORDINATOR: u8 = 2;

/// Steps of an actor that follow one another, each with what it finds; before them, how often they are made, and by how many words
/// each time is further on, but for steps on the phase.
type Lines = (u8, u32, u32, &'static [(Ask, u64)]);

const LINES: &[Lines] = &[
    // Rounds 1 to 49. The processor polls, makes the object (a search that meets no span in two passes and takes a fresh one, and
    // the making), polls, and begins to wait; the worker finds the phase off, and looks at one page after the other. The
    // coordinator looks whether the processor is gone, and whether a cycle is asked for, in turns: in round 48 one is.
    (PROCESSOR, 1, 0, &[(Load(Phase), 0), (Swap(Lock, 0, 1), 0)]),
    (PROCESSOR, 16, 1, &[(Load(Page(0)), 0)]),
    (PROCESSOR, 16, 1, &[(Load(Page(0)), 0)]),
    (
        PROCESSOR,
        1,
        0,
        &[
            (Load(Page(0)), 0),
            (Store(Page(0), OWNED), 0),
            (Store(Lock, 0), 1),
            (Load(Alloc(0)), 0),
            (Store(Field(0), 0), 0),
            (Store(Birth(0), 4_294_967_296), 0),
            (And(Bitmap(0), 18_446_744_073_709_551_614), 0),
            (Or(Bitmap(0), 1), 0),
            (Or(Alloc(0), 1), 0),
            (Add(Heap, 8), 0),
            (Load(Trigger), NEVER),
            (Load(Phase), 0),
            (Or(Want, 1), 0),
            (Load(Phase), 0),
            (Load(Swept), 0),
        ],
    ),
    (WORKER, 16, 1, &[(Load(Phase), 0), (Load(Page(0)), 0)]),
    (WORKER, 8, 1, &[(Load(Phase), 0), (Load(Page(0)), 0)]),
    (WORKER, 1, 0, &[(Load(Phase), 0)]),
    (COORDINATOR, 23, 0, &[(Load(Ack(0)), 0), (Load(Want), 0)]),
    (
        COORDINATOR,
        1,
        0,
        &[(Load(Ack(0)), 0), (Load(Want), 1), (Store(Phase, 6), 0)],
    ),
    // Rounds 50 to 65: stop 1. The processor gives its span back and acknowledges in round 54, the worker in round 52. Cycle
    // 1 is opened while both wait.
    (
        PROCESSOR,
        1,
        0,
        &[
            (Load(Phase), 6),
            (Swap(Lock, 0, 1), 0),
            (Store(Page(0), FREE), OWNED),
            (Store(Lock, 0), 1),
            (Store(Ack(0), 1), 0),
        ],
    ),
    (PROCESSOR, 11, 0, &[(Load(Phase), 6)]),
    (
        WORKER,
        1,
        0,
        &[(Load(Page(8)), 0), (Load(Phase), 6), (Store(Ack(1), 1), 0)],
    ),
    (WORKER, 13, 0, &[(Load(Phase), 6)]),
    (COORDINATOR, 4, 0, &[(Load(Ack(0)), 0)]),
    (
        COORDINATOR,
        1,
        0,
        &[
            (Load(Ack(0)), 1),
            (Load(Ack(1)), 1),
            (Store(Want, 0), 1),
            (Store(Gcur, 0), 0),
            (Store(Tally, 0), 0),
            (Store(Live, 0), 0),
            (Store(Trigger, NEVER), NEVER),
            (Load(Heap), 8),
            (Store(Work, 0), 0),
            (Store(Slack, 1), 1),
            (Store(Begun, 1), 0),
            (Store(Phase, 5), 6),
        ],
    ),
    // Rounds 66 to 211. The processor scans its stack: the object is marked, and becomes the entry of buffer 0, which it
    // takes in round 72 and keeps. It goes on to poll and to look for the swept cycle. The worker has looked at buffer 0 in
    // round 70; no buffer has an entry for it, so it claims the global (round 140), which is nil, and looks once more. The
    // coordinator waits for that, sees the stack scanned and no buffer with entries that nobody holds, and stops the world.
    (
        PROCESSOR,
        1,
        0,
        &[
            (Load(Phase), 5),
            (Load(Gen), 2),
            (Load(Begun), 1),
            (Load(Page(0)), FREE),
            (Or(Mark(0), 1), 0),
            (Load(Buffer(0)), 0),
            (Swap(Buffer(0), 0, 256), 0),
            (Store(Entry(0, 0), 1), 0),
            (Store(Scanned(0), 1), 0),
            (Load(Swept), 0),
        ],
    ),
    (PROCESSOR, 68, 0, &[(Load(Phase), 5), (Load(Swept), 0)]),
    (
        WORKER,
        1,
        0,
        &[
            (Load(Phase), 5),
            (Load(Gen), 2),
            (Load(Begun), 1),
            (Load(Phase), 5),
        ],
    ),
    (WORKER, 69, 1, &[(Load(Buffer(0)), 0)]),
    (
        WORKER,
        1,
        0,
        &[
            (Load(Gcur), 0),
            (Add(Gcur, 1), 0),
            (Load(Global(0)), 0),
            (Load(Phase), 5),
            (Load(Buffer(0)), 256),
        ],
    ),
    (WORKER, 68, 1, &[(Load(Buffer(1)), 0)]),
    (COORDINATOR, 74, 0, &[(Load(Gcur), 0)]),
    (
        COORDINATOR,
        1,
        0,
        &[
            (Load(Gcur), 1),
            (Load(Scanned(0)), 1),
            (Load(Buffer(0)), 256),
        ],
    ),
    (COORDINATOR, 68, 1, &[(Load(Buffer(1)), 0)]),
    (COORDINATOR, 1, 0, &[(Store(Phase, 10), 5)]),
    // Rounds 212 to 219: stop 2. The processor gives buffer 0 back with its entry, so the check fails and marking goes on. The
    // worker hands over the one word that it has scanned, the global.
    (
        PROCESSOR,
        1,
        0,
        &[
            (Load(Phase), 10),
            (Store(Buffer(0), 1), 256),
            (Store(Ack(0), 2), 1),
        ],
    ),
    (PROCESSOR, 5, 0, &[(Load(Phase), 10)]),
    (
        WORKER,
        1,
        0,
        &[
            (Load(Gcur), 1),
            (Load(Phase), 10),
            (Add(Bank, 1), 0),
            (Store(Ack(1), 2), 1),
        ],
    ),
    (WORKER, 4, 0, &[(Load(Phase), 10)]),
    (COORDINATOR, 2, 0, &[(Load(Ack(0)), 1)]),
    (
        COORDINATOR,
        1,
        0,
        &[
            (Load(Ack(0)), 2),
            (Load(Ack(1)), 2),
            (Load(Gcur), 1),
            (Load(Scanned(0)), 1),
            (Load(Buffer(0)), 1),
            (Store(Phase, 9), 10),
        ],
    ),
    // Rounds 220 to 294. It is the same cycle: the processor scans nothing, and takes no buffer. The worker takes the
    // object (round 225) and scans it: one bitmap word, and the pointer field, which is nil. The coordinator sees buffer 0
    // with its entry once more, and held when it looks again.
    (
        PROCESSOR,
        1,
        0,
        &[
            (Load(Phase), 9),
            (Load(Gen), 2),
            (Load(Begun), 1),
            (Load(Swept), 0),
        ],
    ),
    (PROCESSOR, 35, 0, &[(Load(Phase), 9), (Load(Swept), 0)]),
    (PROCESSOR, 1, 0, &[(Load(Phase), 9)]),
    (
        WORKER,
        1,
        0,
        &[
            (Load(Phase), 9),
            (Load(Gen), 2),
            (Load(Begun), 1),
            (Load(Phase), 9),
            (Load(Buffer(0)), 1),
            (Swap(Buffer(0), 1, 513), 1),
            (Load(Entry(0, 0)), 1),
            (Load(Page(0)), FREE),
            (Load(Bitmap(0)), 1),
            (Load(Field(0)), 0),
            (Load(Phase), 9),
            (Load(Buffer(0)), 513),
        ],
    ),
    (WORKER, 63, 1, &[(Load(Buffer(1)), 0)]),
    (
        COORDINATOR,
        1,
        0,
        &[
            (Load(Gcur), 1),
            (Load(Scanned(0)), 1),
            (Load(Buffer(0)), 1),
            (Load(Gcur), 1),
            (Load(Scanned(0)), 1),
            (Load(Buffer(0)), 513),
        ],
    ),
    (COORDINATOR, 68, 1, &[(Load(Buffer(1)), 0)]),
    (COORDINATOR, 1, 0, &[(Store(Phase, 14), 9)]),
    // Rounds 295 to 379: stop 3. The worker finds the stop when it has seen all buffers, hands over the word of the
    // object, and gives its own buffer back. The check passes, what the bank has lapses, and the world goes on.
    (
        PROCESSOR,
        1,
        0,
        &[(Load(Swept), 0), (Load(Phase), 14), (Store(Ack(0), 3), 2)],
    ),
    (PROCESSOR, 82, 0, &[(Load(Phase), 14)]),
    (WORKER, 5, 1, &[(Load(Buffer(64)), 0)]),
    (
        WORKER,
        1,
        0,
        &[
            (Load(Gcur), 1),
            (Load(Phase), 14),
            (Add(Bank, 1), 1),
            (Store(Buffer(0), 0), 513),
            (Store(Ack(1), 3), 2),
        ],
    ),
    (WORKER, 75, 0, &[(Load(Phase), 14)]),
    (COORDINATOR, 2, 0, &[(Load(Ack(0)), 2)]),
    (COORDINATOR, 1, 0, &[(Load(Ack(0)), 3)]),
    (COORDINATOR, 6, 0, &[(Load(Ack(1)), 2)]),
    (
        COORDINATOR,
        1,
        0,
        &[(Load(Ack(1)), 3), (Load(Gcur), 1), (Load(Scanned(0)), 1)],
    ),
    (COORDINATOR, 69, 1, &[(Load(Buffer(0)), 0)]),
    (
        COORDINATOR,
        1,
        0,
        &[
            (Load(Bank), 2),
            (Store(Bank, 0), 2),
            (Store(Gen, 4), 2),
            (Store(Phase, 12), 14),
        ],
    ),
    // Rounds 380 to 452. The sweep keeps the object and clears its mark, and cycle 1 is told. The processor polls and looks for
    // the swept cycle, and the worker looks at one page after the other: in rounds 398 and 430 at the one that is in sweep.
    (
        PROCESSOR,
        1,
        0,
        &[
            (Load(Phase), 12),
            (Load(Gen), 4),
            (Load(Begun), 1),
            (Load(Swept), 0),
        ],
    ),
    (PROCESSOR, 34, 0, &[(Load(Phase), 12), (Load(Swept), 0)]),
    (PROCESSOR, 1, 0, &[(Load(Phase), 12)]),
    (
        WORKER,
        1,
        0,
        &[(Load(Phase), 12), (Load(Gen), 4), (Load(Begun), 1)],
    ),
    (WORKER, 7, 1, &[(Load(Phase), 12), (Load(Page(9)), 0)]),
    (
        WORKER,
        1,
        0,
        &[(Load(Phase), 12), (Load(Page(0)), IN_SWEEP)],
    ),
    (WORKER, 15, 1, &[(Load(Phase), 12), (Load(Page(1)), 0)]),
    (
        WORKER,
        1,
        0,
        &[(Load(Phase), 12), (Load(Page(0)), IN_SWEEP)],
    ),
    (WORKER, 11, 1, &[(Load(Phase), 12), (Load(Page(1)), 0)]),
    (
        COORDINATOR,
        1,
        0,
        &[
            (Load(Page(0)), FREE),
            (Swap(Page(0), FREE, IN_SWEEP), FREE),
            (Load(Mark(0)), 1),
            (And(Alloc(0), 1), 1),
            (Store(Mark(0), 0), 1),
        ],
    ),
    (
        COORDINATOR,
        15,
        1,
        &[
            (Load(Mark(1)), 0),
            (And(Alloc(1), 0), 0),
            (Store(Mark(1), 0), 0),
        ],
    ),
    (
        COORDINATOR,
        1,
        0,
        &[
            (Add(Tally, 1), 0),
            (Add(Live, 8), 0),
            (Add(Heap, 0), 8),
            (Store(Page(0), SWEPT), IN_SWEEP),
        ],
    ),
    (COORDINATOR, 15, 1, &[(Load(Page(1)), 0)]),
    (
        COORDINATOR,
        1,
        0,
        &[
            (Load(Tally), 1),
            (Load(Live), 8),
            (Store(Trigger, NEVER), NEVER),
            (Store(Swept, 1), 0),
        ],
    ),
    // Rounds 453 to 457. `gc` is answered. The processor polls, its goroutine ends, and it leaves, with nothing to give back.
    (
        PROCESSOR,
        1,
        0,
        &[
            (Load(Swept), 1),
            (Load(Phase), 12),
            (Store(Scanned(0), END), 1),
            (Store(Ack(0), GONE), 3),
        ],
    ),
    (WORKER, 2, 1, &[(Load(Phase), 12), (Load(Page(12)), 0)]),
    (WORKER, 1, 0, &[(Load(Phase), 12)]),
    (COORDINATOR, 2, 0, &[(Load(Ack(0)), 3), (Load(Want), 0)]),
    (COORDINATOR, 1, 0, &[(Load(Ack(0)), GONE)]),
    // Rounds 458 to 470: stop 4, for the last cycle, 2.
    (
        WORKER,
        1,
        0,
        &[
            (Load(Page(14)), 0),
            (Load(Phase), 18),
            (Store(Ack(1), 4), 3),
        ],
    ),
    (WORKER, 10, 0, &[(Load(Phase), 18)]),
    (
        COORDINATOR,
        1,
        0,
        &[
            (Store(Phase, 18), 12),
            (Load(Ack(0)), GONE),
            (Load(Ack(1)), 4),
            (Store(Want, 0), 0),
            (Store(Gcur, 0), 1),
            (Store(Tally, 0), 1),
            (Store(Live, 0), 8),
            (Store(Trigger, NEVER), NEVER),
            (Load(Heap), 8),
            (Store(Work, 0), 0),
            (Store(Slack, 1), 1),
            (Store(Begun, 2), 1),
            (Store(Phase, 17), 18),
        ],
    ),
    // Rounds 471 to 616. The goroutine has ended, so nothing is grey: the worker claims the global, and that is all.
    (
        WORKER,
        1,
        0,
        &[
            (Load(Phase), 17),
            (Load(Gen), 4),
            (Load(Begun), 2),
            (Load(Phase), 17),
        ],
    ),
    (WORKER, 69, 1, &[(Load(Buffer(0)), 0)]),
    (
        WORKER,
        1,
        0,
        &[
            (Load(Gcur), 0),
            (Add(Gcur, 1), 0),
            (Load(Global(0)), 0),
            (Load(Phase), 17),
        ],
    ),
    (WORKER, 69, 1, &[(Load(Buffer(0)), 0)]),
    (COORDINATOR, 74, 0, &[(Load(Gcur), 0)]),
    (
        COORDINATOR,
        1,
        0,
        &[(Load(Gcur), 1), (Load(Scanned(0)), END)],
    ),
    (COORDINATOR, 69, 1, &[(Load(Buffer(0)), 0)]),
    (COORDINATOR, 1, 0, &[(Store(Phase, 22), 17)]),
    // Rounds 617 to 695: stop 5. The worker hands over the word of the global.
    (
        WORKER,
        1,
        0,
        &[
            (Load(Gcur), 1),
            (Load(Phase), 22),
            (Add(Bank, 1), 0),
            (Store(Ack(1), 5), 4),
        ],
    ),
    (WORKER, 75, 0, &[(Load(Phase), 22)]),
    (
        COORDINATOR,
        1,
        0,
        &[
            (Load(Ack(0)), GONE),
            (Load(Ack(1)), 4),
            (Load(Ack(1)), 4),
            (Load(Ack(1)), 5),
            (Load(Gcur), 1),
            (Load(Scanned(0)), END),
        ],
    ),
    (COORDINATOR, 69, 1, &[(Load(Buffer(0)), 0)]),
    (
        COORDINATOR,
        1,
        0,
        &[
            (Load(Bank), 1),
            (Store(Bank, 0), 1),
            (Store(Gen, 6), 4),
            (Store(Phase, 20), 22),
        ],
    ),
    // Rounds 696 to 769. The sweep frees the object, and the last cycle is told: all is finished. The worker looks at the page
    // that is in sweep in rounds 702 and 734, and in round 766, when it is swept.
    (
        WORKER,
        1,
        0,
        &[(Load(Phase), 20), (Load(Gen), 6), (Load(Begun), 2)],
    ),
    (WORKER, 1, 0, &[(Load(Phase), 20), (Load(Page(15)), 0)]),
    (
        WORKER,
        1,
        0,
        &[(Load(Phase), 20), (Load(Page(0)), IN_LAST_SWEEP)],
    ),
    (WORKER, 15, 1, &[(Load(Phase), 20), (Load(Page(1)), 0)]),
    (
        WORKER,
        1,
        0,
        &[(Load(Phase), 20), (Load(Page(0)), IN_LAST_SWEEP)],
    ),
    (WORKER, 15, 1, &[(Load(Phase), 20), (Load(Page(1)), 0)]),
    (
        WORKER,
        1,
        0,
        &[(Load(Phase), 20), (Load(Page(0)), LAST_SWEPT)],
    ),
    (WORKER, 1, 0, &[(Load(Phase), 20), (Load(Page(1)), 0)]),
    (WORKER, 1, 0, &[(Load(Phase), 20)]),
    (
        COORDINATOR,
        1,
        0,
        &[
            (Load(Page(0)), SWEPT),
            (Swap(Page(0), SWEPT, IN_LAST_SWEEP), SWEPT),
            (Load(Mark(0)), 0),
            (And(Alloc(0), 0), 1),
            (Store(Mark(0), 0), 0),
        ],
    ),
    (
        COORDINATOR,
        15,
        1,
        &[
            (Load(Mark(1)), 0),
            (And(Alloc(1), 0), 0),
            (Store(Mark(1), 0), 0),
        ],
    ),
    (
        COORDINATOR,
        1,
        0,
        &[
            (Add(Tally, 4_294_967_296), 0),
            (Add(Live, 0), 0),
            (Add(Heap, 18_446_744_073_709_551_608), 8),
            (Store(Page(0), LAST_SWEPT), IN_LAST_SWEEP),
        ],
    ),
    (COORDINATOR, 15, 1, &[(Load(Page(1)), 0)]),
    (
        COORDINATOR,
        1,
        0,
        &[
            (Load(Tally), 4_294_967_296),
            (Load(Live), 0),
            (Store(Trigger, NEVER), NEVER),
            (Store(Swept, 2), 1),
            (Store(Phase, 23), 20),
        ],
    ),
    // Rounds 770 to 772. The worker looks at one more page, finds that all is finished, and is gone.
    (
        WORKER,
        1,
        0,
        &[
            (Load(Page(2)), 0),
            (Load(Phase), 23),
            (Store(Ack(1), GONE), 5),
        ],
    ),
];

/// The lines that an actor's steps are to have, how many steps it has made, and how many of these were so.
#[derive(Drop)]
pub(crate) struct Column {
    lines: Vec<(Req, u64)>,
    steps: usize,
    right: usize,
}

impl Column {
    /// The lines of this actor.
    pub(crate) fn of(alloc: Allocator, layout: &Layout, who: u8) -> Result<Column, AllocError> {
        let mut lines = Vec::new(alloc);
        for (actor, times, further, steps) in LINES {
            if *actor == who {
                for i in 0..*times {
                    add(layout, &mut lines, steps, further.wrapping_mul(i))?;
                }
            }
        }
        Ok(Column {
            lines,
            steps: 0,
            right: 0,
        })
    }

    /// Counts a step, and whether it is the next line.
    pub(crate) fn count(&mut self, request: Req, found: u64) {
        if self.lines.get(self.steps).copied() == Some((request, found)) {
            self.right = self.right.saturating_add(1);
        }
        self.steps = self.steps.saturating_add(1);
    }

    /// How many lines there are, how many steps were made, and how many of these were the line of their number.
    pub(crate) fn counts(&self) -> (usize, usize, usize) {
        (self.lines.len(), self.steps, self.right)
    }
}

/// Appends the steps, so many words further on but for those on the phase.
fn add(
    layout: &Layout,
    lines: &mut Vec<(Req, u64)>,
    steps: &[(Ask, u64)],
    further: u32,
) -> Result<(), AllocError> {
    for (ask, found) in steps {
        if layout.has(cell_of(*ask)) {
            let by = if cell_of(*ask) == Phase { 0 } else { further };
            lines.push((moved(layout.request(*ask), by), *found))?;
        }
    }
    Ok(())
}

/// The cell of the step.
fn cell_of(ask: Ask) -> Cell
    ensures { result ≡ cell_of ask }
{
    match ask {
        Load(cell)
        | Store(cell, _)
        | Or(cell, _)
        | And(cell, _)
        | Add(cell, _)
        | Swap(cell, _, _) => { cell }
    }
}

/// The same step so many words further on.
fn moved(request: Req, further: u32) -> Req {
    match request {
        Req::Load(w) => Req::Load(w.wrapping_add(further)),
        Req::Store(w, v) => Req::Store(w.wrapping_add(further), v),
        Req::Or(w, v) => Req::Or(w.wrapping_add(further), v),
        Req::And(w, v) => Req::And(w.wrapping_add(further), v),
        Req::Add(w, v) => Req::Add(w.wrapping_add(further), v),
        Req::Swap(w, old, new) => Req::Swap(w.wrapping_add(further), old, new),
    }
}
