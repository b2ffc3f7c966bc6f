//! The goal, the trigger, and what who allocates owes.

ghost use Rattle.std.specs.Prelude.{◌≡◌, ◌*◌, ◌+◌, ◌≤◌, ◌^◌, IfSome};
ghost use Rattle.gh_pacer.specs.Pacing.{FitsGoal, LiesBetween, debt, goal, roots, slack, trigger, work};

/// The most bytes of each number that a goal is made of: 2^40.
pub const MOST_BYTES: u64 = 1 << 40;
/// The most percent by which the heap may grow from one cycle to the next (Go's `GOGC`).
pub const MOST_GOGC: u32 = 1000;
/// The most bytes of a goal: what was live, and ten times that and the roots.
pub const MOST_GOAL: u64 = 21 * MOST_BYTES;
/// The most globals, and the most goroutines, of which roots are counted: 2^16.
pub const MOST_ROOTS: u32 = 1 << 16;
/// The trigger that no allocation reaches, in bytes: it asks for no cycle.
pub const NEVER: u64 = u64::MAX;

/// The bytes of the roots: a word of 8 bytes for each global, and for each of the 16 registers of a goroutine.
/// There are at most 65,536 of either. (Go's `globalsScan` and `lastStackScan`, mgcpacer.go.)
pub fn roots(globals: u32, goroutines: u32) -> u64
    requires globals { globals ≤ MOST_ROOTS }
    requires goroutines { goroutines ≤ MOST_ROOTS }
    ensures { result ≡ roots globals goroutines }
{
    (u64::from(globals) + 16 * u64::from(goroutines)) * 8
}

/// The bytes that the heap is to have at most when the next cycle ends, 0 to `MOST_GOAL` (Go's `heapGoal`, mgcpacer.go):
/// what was `live` and, of that and the roots, `gogc` percent more, but `minheap` at the least. There is none exactly
/// where `gogc` is 0: then no cycle is paced. `live`, `roots` and `minheap` are bytes.
pub fn goal(live: u64, roots: u64, gogc: u64, minheap: u64) -> Option<u64>
    requires live { live ≤ MOST_BYTES }
    requires roots { roots ≤ MOST_BYTES }
    requires gogc { gogc ≤ MOST_GOGC }
    requires minheap { minheap ≤ MOST_BYTES }
    ensures is { result ≡ goal live roots gogc minheap }
    ensures least { IfSome result (λ bytes. (live ≤ bytes) × (minheap ≤ bytes)) }
    ensures fits { FitsGoal result }
{
    if gogc == 0 {
        return None;
    }
    Some(minheap.max(live + (live + roots) * gogc / 100))
}

/// The bytes of the heap at which a cycle is asked for (Go's `trigger`, mgcpacer.go): seven tenths of the way from what was
/// `live` to the goal, `live` where the goal is below it, and `NEVER` where there is none.
pub fn trigger(live: u64, goal: Option<u64>) -> u64
    requires live { live ≤ MOST_BYTES }
    requires goal { FitsGoal goal }
    ensures is { result ≡ trigger live goal }
    ensures lies { LiesBetween live goal result }
{
    match goal {
        None => NEVER,
        Some(bytes) => live + 7 * bytes.saturating_sub(live) / 10,
    }
}

/// The words that are to be scanned in a cycle, of 8 bytes each: those of what was `live` and of the roots, both in bytes;
/// none where there is no goal. (Go's `scanWorkExpected`, in `revise`, mgcpacer.go.)
pub fn work(live: u64, roots: u64, goal: Option<u64>) -> u64
    requires live { live ≤ MOST_BYTES }
    requires roots { roots ≤ MOST_BYTES }
    ensures { result ≡ work live roots goal }
{
    match goal {
        None => 0,
        Some(_) => (live + roots) / 8,
    }
}

/// The bytes that may be allocated in a cycle that begins with so many bytes in the heap: up to the goal, but 1 at the
/// least, by which a debt can be divided; 1 where there is no goal. (Go's `heapRemaining`, in `revise`, mgcpacer.go.)
pub fn slack(heap: u64, goal: Option<u64>) -> u64
    ensures { result ≡ slack heap goal }
{
    match goal {
        None => 1,
        Some(bytes) => bytes.saturating_sub(heap).max(1),
    }
}

/// The words that who allocates so many bytes owes: their share of the work, as the bytes are of the slack, rounded up
/// (Go's `assistWorkPerByte` times the bytes, in `gcAssistAlloc`, mgcmark.go). Each number is at most 2^31.
pub fn debt(bytes: u64, work: u64, slack: u64) -> u64
    requires bytes { bytes ≤ 2 ^ 31 }
    requires work { work ≤ 2 ^ 31 }
    requires slack { (1 ≤ slack) × (slack ≤ 2 ^ 31) }
    ensures is { result ≡ debt bytes work slack }
    ensures enough { bytes * work ≤ result * slack }
{
    (bytes * work).div_ceil(slack)
}
