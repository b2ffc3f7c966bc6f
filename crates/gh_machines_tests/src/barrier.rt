//! Writes of pointers behind the write barrier.

ghost use Rattle.std.specs.Prelude.{◌≡◌, true};
ghost use Rattle.gh_base.specs.Cells.{InRange};
ghost use Rattle.gh_barrier.specs.Listing.{cell_at, is_busy};
ghost use Rattle.gh_barrier.specs.Sound.{FitsPointer, SoundWriting};

use crate::runs::{FIELD_ROW, GLOBAL_ROW, MARK_ROW, ONE, PAGE_ROW, words};
use gh_barrier::{PointerCell, WritePointer};
use gh_base::trace::run_routine_alone;
use gh_base::{Held, Layout, LayoutPlan};
use std::test::Fail;

/// What field 70 holds, the object at heap word 3077, and what is written, that at heap word 5184: the words of
/// their mark bits where these are clear and where they are set. Other objects have a bit in both words.
const OLD: u64 = 3078;

const OLD_WHITE: u64 = 4;

const OLD_MARKED: u64 = 36;

const NEW: u64 = 5185;

const NEW_WHITE: u64 = 2;

const NEW_MARKED: u64 = 3;

/// The steps by which each is shaded, as it finds the mark bit clear or set.
const OLD_PAGE: &str = "load page 3: 2147484161";

const OLD_SETS: &str = "or mark 48 32: 4";

const OLD_WAS_SET: &str = "or mark 48 32: 36";

const OLD_ENTERS: &str = "store entry 257 3078: 0";

const NEW_PAGE: &str = "load page 5: 2147484161";

const NEW_SETS: &str = "or mark 81 1: 2";

/// The buffer that is held, whose entries are words 253 and on of their row.
const OWN: Held = Held { index: 1, count: 4 };

/// What is known of the objects, with this in field 70, and these the words of the two mark bits.
fn set(field: u64, old: u64, new: u64) -> [(usize, u64); 6] {
    [
        (PAGE_ROW + 3, ONE),
        (PAGE_ROW + 5, ONE),
        (MARK_ROW + 48, old),
        (MARK_ROW + 81, new),
        (FIELD_ROW + 70, field),
        (GLOBAL_ROW, OLD),
    ]
}

/// A write of this pointer to this cell of the heap, with that buffer.
fn begin(layout: &Layout, at: PointerCell, pointer: Option<u64>) -> WritePointer
    requires cell { InRange layout.now (cell_at at) }
    requires pointer { FitsPointer layout.now pointer }
    ensures sound { SoundWriting layout.now result }
    ensures busy { is_busy result.stage ≡ true }
{
    let _ = layout;
    WritePointer::new(at, pointer, Some(OWN))
}

/// A store of the new one where neither is marked, where both are, and where nil was there; one of nil; and one of what stands there already,
/// whose first shade finds it clear and whose second finds it marked.
const BOTH_WHITE: [&str; 8] = [
    "load field 70: 3078",
    OLD_PAGE,
    OLD_SETS,
    OLD_ENTERS,
    NEW_PAGE,
    NEW_SETS,
    "store entry 258 5185: 0",
    "store field 70 5185: 3078",
];

const BOTH_MARKED: [&str; 6] = [
    "load field 70: 3078",
    OLD_PAGE,
    OLD_WAS_SET,
    NEW_PAGE,
    "or mark 81 1: 3",
    "store field 70 5185: 3078",
];

const OLD_NIL: [&str; 5] = [
    "load field 70: 0",
    NEW_PAGE,
    NEW_SETS,
    "store entry 257 5185: 0",
    "store field 70 5185: 0",
];

const NEW_NIL: [&str; 5] = [
    "load field 70: 3078",
    OLD_PAGE,
    OLD_SETS,
    OLD_ENTERS,
    "store field 70 0: 3078",
];

const THE_SAME: [&str; 7] = [
    "load global 0: 3078",
    OLD_PAGE,
    OLD_SETS,
    OLD_ENTERS,
    OLD_PAGE,
    OLD_WAS_SET,
    "store global 0 3078: 3078",
];

#[test]
fn old_and_new_are_shaded(rt: HostRuntime) -> Result<(), Fail> {
    let layout = Layout::new(LayoutPlan::LEAST)?;
    let field = PointerCell::Field(70);
    let new = Some(NEW);
    // the cell, what the words are and what is written; the steps, and the entries then
    for (at, set, pointer, lines, count) in [
        (
            field,
            set(OLD, OLD_WHITE, NEW_WHITE),
            new,
            BOTH_WHITE.as_slice(),
            6,
        ),
        (
            field,
            set(OLD, OLD_MARKED, NEW_MARKED),
            new,
            BOTH_MARKED.as_slice(),
            4,
        ),
        (
            field,
            set(0, OLD_WHITE, NEW_WHITE),
            new,
            OLD_NIL.as_slice(),
            5,
        ),
        (
            field,
            set(OLD, OLD_WHITE, NEW_WHITE),
            None,
            NEW_NIL.as_slice(),
            5,
        ),
        (
            PointerCell::Global(0),
            set(0, OLD_WHITE, NEW_WHITE),
            Some(OLD),
            THE_SAME.as_slice(),
            5,
        ),
    ] {
        let mut words = words(rt.alloc(), &set)?;
        let mut write = begin(&layout, at, pointer);
        let steps = run_routine_alone(rt.alloc(), &mut write, &layout, &mut words, 9)?;
        let told = (steps.out, steps.are(lines), write.held());
        assert_eq!(rt; told, (Some(()), true, Some(Held { index: 1, count })));
    }
    Ok(())
}
