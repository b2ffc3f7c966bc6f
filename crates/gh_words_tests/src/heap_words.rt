//! Where the words of a heap lie, and what is packed into them: the numbers that the definitions stand for.

use gh_base::{
    BufferWord, Cell, Layout, LayoutPlan, Name, PageWord, Phase, PhaseWord, SpanBody, SpanHead,
    TallyWord,
};
use gh_class::{Class, SizeClass};
use std::test::Fail;

/// The first word of each row of a heap of 16 pages, one global, one processor, one worker and one goroutine, and the last entry.
const ROWS: [(Cell, u32); 14] = [
    (Cell::Touch, 0),
    (Cell::Live, 14),
    (Cell::Page(0), 15),
    (Cell::Alloc(0), 31),
    (Cell::Mark(0), 287),
    (Cell::Bitmap(0), 543),
    (Cell::Birth(0), 799),
    (Cell::Field(0), 17_183),
    (Cell::Global(0), 33_567),
    (Cell::Buffer(0), 33_568),
    (Cell::Entry(0, 0), 33_637),
    (Cell::Entry(68, 252), 51_093),
    (Cell::Ack(0), 51_094),
    (Cell::Scanned(0), 51_096),
];

/// A free page, the head of a span and a further page of one, a buffer, a name, a stop and the counts of a sweep.
fn packed(class: Class) -> [u64; 7] {
    let head = SpanHead {
        class: SizeClass::Small(class),
        noscan: true,
        pages: 1,
        owner: 2,
        number: 2,
    };
    let body = SpanBody {
        class: SizeClass::Large,
        noscan: false,
        distance: 3,
    };
    let buffer = BufferWord {
        count: 5,
        holder: 3,
    };
    let stop = PhaseWord {
        stops: 3,
        phase: Phase::Stop,
    };
    let tally = TallyWord {
        marked: 1,
        freed: 2,
    };
    [
        PageWord::Free.pack(),
        PageWord::Head(head).pack(),
        PageWord::Body(body).pack(),
        buffer.pack(),
        Name { g: 1, k: 7 }.pack(),
        stop.pack(),
        tally.pack(),
    ]
}

#[test]
fn rows_lie_one_behind_the_other_and_words_are_packed(rt: HostRuntime) -> Result<(), Fail> {
    let layout = Layout::new(LayoutPlan::LEAST)?;
    assert_eq!(rt;
        (layout.seats(), layout.buffers(), layout.words()),
        (3, 69, 51_097)
    );
    for (cell, word) in ROWS {
        let found = if layout.has(cell) {
            Some(layout.word(cell))
        } else {
            None
        };
        assert_eq!(rt; found, Some(word), "{cell:?}");
    }
    let class = Class::from_number(3).ok_or("no class")?;
    assert_eq!(rt;
        packed(class),
        [0, 2155873037, 1662, 773, 8589934599, 14, 8589934593]
    );
    Ok(())
}
