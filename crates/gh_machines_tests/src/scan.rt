//! The scan of an object: which words of its slot it loads, and what it shades.

use crate::runs::{BITMAP_ROW, BUFFER_ROW, FIELD_ROW, MARK_ROW, ONE, PAGE_ROW, TWO, words};
use gh_base::trace::run_routine_alone;
use gh_base::{Held, Layout, LayoutPlan};
use gh_scan::Scan;
use std::test::Fail;

/// The object at heap word 3 * 1024 + 62 has two words, whose bits are the last two of one bitmap word: a number, and a reference of the
/// object at heap word 1024.
const SHADED: [(usize, u64); 5] = [
    (PAGE_ROW + 3, TWO),
    (BITMAP_ROW + 48, 1 << 63),
    (FIELD_ROW + 3134, 5),
    (FIELD_ROW + 3135, 1025),
    (PAGE_ROW + 1, ONE),
];

const SHADES: [&str; 6] = [
    "load page 3: 2147484165",
    "load bitmap 48: 9223372036854775808",
    "load field 3135: 1025",
    "load page 1: 2147484161",
    "or mark 16 1: 0",
    "store entry 257 1025: 0",
];

/// The slot of two words at heap words 63 and 64, whose second field names a marked object.
const IN_TWO_WORDS: [(usize, u64); 6] = [
    (PAGE_ROW, TWO),
    (BITMAP_ROW, 1),
    (BITMAP_ROW + 1, 1),
    (FIELD_ROW + 64, 1025),
    (PAGE_ROW + 1, ONE),
    (MARK_ROW + 16, 1),
];

const LOADS_ANEW: [&str; 6] = [
    "load page 0: 2147484165",
    "load bitmap 0: 1",
    "load bitmap 1: 1",
    "load field 64: 1025",
    "load page 1: 2147484161",
    "or mark 16 1: 1",
];

/// The object at heap word 7 has one word, which names the object at heap word 1024; the buffer that is held is full.
const FULL: [(usize, u64); 5] = [
    (PAGE_ROW, ONE),
    (BITMAP_ROW, 128),
    (FIELD_ROW + 7, 1025),
    (PAGE_ROW + 1, ONE),
    (BUFFER_ROW, 512),
];

const FINDS_ROOM: [&str; 10] = [
    "load page 0: 2147484161",
    "load bitmap 0: 128",
    "load field 7: 1025",
    "load page 1: 2147484161",
    "or mark 16 1: 0",
    "store buffer 0 253: 512",
    "load buffer 0: 253",
    "load buffer 1: 0",
    "swap buffer 1 0 512: 0",
    "store entry 253 1025: 0",
];

#[test]
fn references_are_shaded(rt: HostRuntime) -> Result<(), Fail> {
    let layout = Layout::new(LayoutPlan::LEAST)?;
    let own = |index, count| Some(Held { index, count });
    // the words that are not 0, the reference and what is held; the words of the slot, the steps, and what is held then
    for (set, reference, held, slot, lines, then) in [
        (
            SHADED.as_slice(),
            3135,
            own(1, 4),
            2,
            SHADES.as_slice(),
            own(1, 5),
        ),
        (
            IN_TWO_WORDS.as_slice(),
            64,
            None,
            2,
            LOADS_ANEW.as_slice(),
            None,
        ),
        (
            FULL.as_slice(),
            8,
            own(0, 253),
            1,
            FINDS_ROOM.as_slice(),
            own(1, 1),
        ),
    ] {
        let mut words = words(rt.alloc(), set)?;
        let mut scan = Scan::new(1, reference, held);
        let steps = run_routine_alone(rt.alloc(), &mut scan, &layout, &mut words, 99)?;
        let told = (steps.out, steps.are(lines), scan.held());
        assert_eq!(rt; told, (Some(slot), true, then), "{reference}");
    }
    Ok(())
}
