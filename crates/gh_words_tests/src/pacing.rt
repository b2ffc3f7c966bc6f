//! What paces a cycle, against numbers worked by hand.
use gh_pacer::{MOST_BYTES, MOST_GOAL, debt, goal, roots, slack, trigger, work};
use std::test::Fail;

/// Of one goroutine and one global: the roots' bytes; and with a least heap of 8,192 bytes, where nothing is live, the goal by a GOGC
/// of 100 and its trigger, the words to be scanned, the bytes until the goal, and what is owed for an object of 16 bytes where the 17
/// words are paid within one byte.
const PACED: [Option<u64>; 6] = [
    Some(136),
    Some(8192),
    Some(5734),
    Some(17),
    Some(8192),
    Some(272),
];

#[test]
fn cycles_are_paced(rt: HostRuntime) -> Result<(), Fail> {
    let first = goal(0, 136, 100, 8192);
    assert_eq!(rt;
        [
            Some(roots(1, 1)),
            first,
            Some(trigger(0, first)),
            Some(work(0, 136, first)),
            Some(slack(0, first)),
            Some(debt(16, 17, 1)),
        ],
        PACED
    );
    // with a GOGC of 0 no allocation asks for a cycle
    assert_eq!(rt;
        (
            goal(0, 136, 0, 8192),
            trigger(0, None),
            work(0, 136, None),
            slack(0, None)
        ),
        (None, 18_446_744_073_709_551_615, 0, 1)
    );
    // where the goal is passed at once: the trigger is what is live, and at least one byte is left; and each by its greatest numbers
    assert_eq!(rt;
        (
            trigger(100, Some(99)),
            slack(6, Some(5)),
            debt(10, 10, 99),
            debt(10, 10, 100)
        ),
        (100, 1, 2, 1)
    );
    assert_eq!(rt;
        (
            roots(65_536, 65_536),
            goal(MOST_BYTES, MOST_BYTES, 1000, MOST_BYTES),
            trigger(MOST_BYTES, Some(MOST_GOAL)),
            work(MOST_BYTES, MOST_BYTES, Some(0)),
            debt(1 << 31, 1 << 31, 1),
        ),
        (
            8_912_896,
            Some(23_089_744_183_296),
            16_492_674_416_640,
            274_877_906_944,
            1 << 62,
        )
    );
    Ok(())
}
