//! What the coordinator paces cycles by.

ghost use Rattle.std.specs.Prelude.{◌≡◌, ◌<◌, ◌≤◌, ◌^◌};
ghost use Rattle.gh_pacer.specs.Pacing.{FitsGoal, roots};
ghost use Rattle.gh_pacer.specs.declared.pacing.TheConstants.{MOST_BYTES, MOST_GOGC};
ghost use Rattle.gh_coord.specs.Pacing.{first_trigger, next_goal, next_trigger, next_work, taken_bytes};

use gh_base::Layout;
use gh_pacer::{goal, roots, trigger, work};

/// How many numbers of bytes are told apart: more than a heap has bytes.
const NUMBERS: u64 = 1 << 31;

/// What is taken of a number of bytes that was found in a word.
pub(crate) fn taken(found: u64) -> u64
    ensures is { result ≡ taken_bytes found }
    ensures fits { result < 2 ^ 31 }
{
    found % NUMBERS
}

/// The bytes of the layout's roots.
fn roots_of(layout: &Layout) -> u64
    ensures is { result ≡ roots layout.now.globals layout.now.goroutines }
    ensures fits { result ≤ MOST_BYTES }
{
    roots(layout.globals, layout.goroutines)
}

/// The goal of the next cycle, where so many bytes were found to be live.
#[tactic(auto, unfolding(crate::specs::Pacing::next_goal))]
pub(crate) fn next_goal(layout: &Layout, gogc: u32, minheap: u32, live: u64) -> Option<u64>
    requires { gogc ≤ MOST_GOGC }
    ensures is { result ≡ next_goal layout.now gogc minheap live }
    ensures fits { FitsGoal result }
{
    goal(
        taken(live),
        roots_of(layout),
        u64::from(gogc),
        u64::from(minheap),
    )
}

/// The trigger of the next cycle, where so many bytes were found to be live.
#[tactic(auto, unfolding(crate::specs::Pacing::next_trigger))]
pub(crate) fn next_trigger(layout: &Layout, gogc: u32, minheap: u32, live: u64) -> u64
    requires { gogc ≤ MOST_GOGC }
    ensures { result ≡ next_trigger layout.now gogc minheap live }
{
    trigger(taken(live), next_goal(layout, gogc, minheap, live))
}

/// The words that are to be scanned in the next cycle, where so many bytes were found to be live.
#[tactic(auto, unfolding(crate::specs::Pacing::next_work))]
pub(crate) fn next_work(layout: &Layout, gogc: u32, minheap: u32, live: u64) -> u64
    requires { gogc ≤ MOST_GOGC }
    ensures { result ≡ next_work layout.now gogc minheap live }
{
    work(
        taken(live),
        roots_of(layout),
        next_goal(layout, gogc, minheap, live),
    )
}

/// The word that the trigger of such a heap opens with, in bytes: nothing is live. `gogc` is in percent, `minheap` in
/// bytes. (In Go `gcController.init` sets it, mgcpacer.go.)
pub fn first_trigger(layout: &Layout, gogc: u32, minheap: u32) -> u64
    requires { gogc ≤ MOST_GOGC }
    ensures { result ≡ first_trigger layout.now.globals layout.now.goroutines gogc minheap }
{
    let first = goal(0, roots_of(layout), u64::from(gogc), u64::from(minheap));
    trigger(0, first)
}
