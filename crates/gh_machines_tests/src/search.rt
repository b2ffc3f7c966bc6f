//! The search for a slot where none is at hand: it frees the pages of empty spans, or sweeps a span and takes it.

ghost use Rattle.std.specs.Prelude.{◌≡◌, ◌<◌};
ghost use Rattle.gh_alloc.specs.FindSound.{IsSought};

use crate::runs::{has_lines, words};
use gh_alloc::{CachedSpan, Found, Search, Sought};
use gh_base::trace::run_routine_alone;
use gh_base::{Layout, LayoutPlan};
use gh_class::{Class, SpanClass};
use std::test::Fail;

/// An object of the class that has no pointer fields.
fn without_pointers(class: &Class) -> Sought
    requires { class.now < 25 }
    ensures { IsSought result }
{
    Sought::Small(SpanClass {
        class: *class,
        noscan: true,
    })
}

/// The words of a heap of 16 pages whose only span is a large one that nobody owns and that is empty, on all of them.
const EMPTY: [(usize, u64); 16] = [
    (15, 4_294_975_613),
    (16, 638),
    (17, 1150),
    (18, 1662),
    (19, 2174),
    (20, 2686),
    (21, 3198),
    (22, 3710),
    (23, 4222),
    (24, 4734),
    (25, 5246),
    (26, 5758),
    (27, 6270),
    (28, 6782),
    (29, 7294),
    (30, 7806),
];

/// For an object of 384 words, of which a span has 8 slots on 3 pages.
const FREES: [(usize, &str); 19] = [
    (0, "swap lock 0 2: 0"),
    // the pass over swept spans, that over unswept ones, and the search for fresh pages
    (1, "load page 0: 4294975613"),
    (2, "load page 0: 4294975613"),
    (3, "load page 0: 4294975613"),
    (4, "load page 1: 638"),
    (18, "load page 15: 7806"),
    // the span is empty
    (19, "load page 0: 4294975613"),
    (20, "load alloc 0: 0"),
    (275, "load alloc 255: 0"),
    (276, "store page 1 0: 638"),
    (290, "store page 15 0: 7806"),
    (291, "store page 0 0: 4294975613"),
    // the pass over swept spans and the search once more
    (292, "load page 0: 0"),
    (307, "load page 15: 0"),
    (308, "load page 0: 0"),
    (311, "store page 1 850: 0"),
    (313, "store page 0 4303357777: 0"),
    (314, "store lock 0: 2"),
    (315, "load alloc 0: 0"),
];

/// 8192 bytes in the heap, and at page 1 an unswept span of two slots, both taken, the second of them by a marked object.
const UNSWEPT: [(usize, u64); 5] = [(9, 8192), (16, 2_147_484_501), (47, 1), (55, 1), (311, 1)];

/// For an object of 512 words, of which a span has 2 slots on a page.
const SWEEPS: [(usize, &str); 19] = [
    (0, "swap lock 0 2: 0"),
    // no swept span
    (1, "load page 0: 0"),
    (2, "load page 1: 2147484501"),
    (16, "load page 15: 0"),
    // an unswept one
    (17, "load page 0: 0"),
    (18, "load page 1: 2147484501"),
    (19, "swap page 1 2147484501 3221226325: 2147484501"),
    (20, "load mark 16: 0"),
    (21, "and alloc 16 0: 1"),
    (22, "store mark 16 0: 0"),
    (44, "load mark 24: 1"),
    (45, "and alloc 24 1: 1"),
    (46, "store mark 24 0: 1"),
    (68, "add tally 4294967297: 0"),
    (70, "add heap 18446744073709547520: 8192"),
    (71, "store page 1 4294968149: 3221226325"),
    // which is taken
    (72, "store page 1 4303356757: 4294968149"),
    (73, "store lock 0: 2"),
    (74, "load alloc 16: 0"),
];

#[test]
fn pages_are_freed_and_spans_swept(rt: HostRuntime) -> Result<(), Fail> {
    let layout = Layout::new(LayoutPlan::LEAST)?;
    // the class and the words that are not 0; the heap word of the slot, the span's first page, the number of steps, and some of them
    for (number, set, at, head, count, lines) in [
        (20, EMPTY.as_slice(), 0, 0, 316, FREES.as_slice()),
        (21, UNSWEPT.as_slice(), 1024, 1, 75, SWEEPS.as_slice()),
    ] {
        let class = Class::from_number(number).ok_or("no class")?;
        let mut words = words(rt.alloc(), set)?;
        let mut search = Search::new(1, 4, without_pointers(&class), None);
        let steps = run_routine_alone(rt.alloc(), &mut search, &layout, &mut words, 999)?;
        let told = (
            steps.out,
            search.cached(),
            steps.lines.len(),
            has_lines(&steps, lines),
        );
        let cached = CachedSpan { head, cursor: 0 };
        assert_eq!(rt;
            told,
            (Some(Found::At(at)), Some(cached), count, true),
            "{number}"
        );
    }
    Ok(())
}
