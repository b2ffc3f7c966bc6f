//! Where a cycle begins: what a script reaches, and the state of marking in which the cycle opens. The functions do
//! nothing; what they ensure is proved.

ghost use Rattle.gh_cycle.specs.Marked.{OpenedRegistersFit};
ghost use Rattle.gh_cycle.specs.Opening.{CyclesOpen, OpenedHeapsAreAtRest};
ghost use Rattle.gh_cycle.specs.Reached.{BoundsLast, PlacesAreDecided, ReachIsDecided, TheReachedWereMade};

use gh_heap::laws::the_heap_is_apart;

/// Which objects a script reaches is told by a test, and so is at which heap words they were placed. Each of
/// them was made.
pub fn reach_is_decided()
    ensures names { ReachIsDecided }
    ensures places { PlacesAreDecided }
    ensures made { TheReachedWereMade }
{}

/// A heap opens with finitely many things to look at, and each operation leaves it so.
pub fn bounds_last()
    ensures { BoundsLast }
{}

/// Where a cycle begins there is a state of marking in which it opens: its objects are those that a script
/// reaches. A heap that was just opened is at rest, and registers fit where a cycle has opened.
pub fn cycles_open()
    ensures open { CyclesOpen }
    ensures rest { OpenedHeapsAreAtRest }
    ensures fit { OpenedRegistersFit }
{
    reach_is_decided();
    the_heap_is_apart();
}
